// A plan's lines as frames, and frames as rows of numbers.
ghost use Rattle.std.specs.Prelude.{◌≡◌, [], ◌∷◌, ◌+◌, ◌/◌, ◌≤◌, length};
ghost use Rattle.hex_lines.specs.Hex.{number_at, put_at, past_put};
ghost use Rattle.plan.specs.Read.{line_read};
ghost use Rattle.plan.specs.Rows.{as_row, row_of, frame_in};
ghost use Rattle.plan.specs.Text.{whole_line, moved_up, change_from, cron_from, ends_from, rule_from, frame_from};

use crate::{Frame, puts};
use frames::places::Row;
use frames::{Cron, Ends, Rule, kinds, numbers, places};
use zone::Transition;

// A number of so many bytes in two's complement, moved up by a day.
fn moved_up(line: &[u8], at: usize, bytes: usize) -> u64
    requires { bytes ≤ 7 }
    ensures { result ≡ moved_up (number_at line.now) at bytes }
{
    (hex_lines::number(line, at, bytes) + zone::BIAS) % puts::numbers_of(bytes)
}

#[tactic(auto, unfolding(crate::specs::Text::cron_from))]
fn cron_of(line: &[u8]) -> Cron
    ensures { result ≡ cron_from (number_at line.now) }
{
    Cron {
        minutes: hex_lines::number(line, 1, 8),
        hours: hex_lines::number(line, 9, 4),
        days: hex_lines::number(line, 13, 4),
        months: hex_lines::number(line, 17, 2),
        weekdays: hex_lines::number(line, 19, 1),
        flags: hex_lines::number(line, 20, 1),
    }
}

fn ends_at(line: &[u8], at: usize, k: usize) -> Ends
    requires { at + k ≤ 35 }
    ensures { result ≡ ends_from (number_at line.now) at k }
{
    Ends {
        front: hex_lines::number(line, at, k),
        back: hex_lines::number(line, at + k, k),
    }
}

#[tactic(auto, unfolding(crate::specs::Text::rule_from))]
fn rule_of(line: &[u8]) -> Rule
    ensures { result ≡ rule_from (number_at line.now) }
{
    Rule {
        frequency: hex_lines::number(line, 1, 1),
        interval: hex_lines::number(line, 2, 2),
        start: hex_lines::number(line, 4, 4),
        last: hex_lines::number(line, 8, 4),
        weekdays: hex_lines::number(line, 12, 1),
        days: ends_at(line, 13, 4),
        ordinals: ends_at(line, 21, 5),
        positions: ends_at(line, 31, 4),
        months: hex_lines::number(line, 39, 2),
    }
}

fn change_of(line: &[u8]) -> Transition
    ensures { result ≡ change_from (number_at line.now) }
{
    Transition {
        at: moved_up(line, 1, 4),
        offset: moved_up(line, 5, 2),
    }
}

// The frame of a line of digits, by its kind and its number of bytes.
#[tactic(auto, unfolding(crate::specs::Text::frame_from))]
fn frame_of(line: &[u8]) -> Option<Frame>
    ensures { result ≡ frame_from (number_at line.now) (length line.now / 2) }
{
    match (hex_lines::number(line, 0, 1), line.len() / 2) {
        (kinds::OFFSET, 3) => Some(Frame::Offset(moved_up(line, 1, 2))),
        (kinds::CHANGE, 7) => Some(Frame::Change(change_of(line))),
        (kinds::CRON, 21) => Some(Frame::Cron(cron_of(line))),
        (kinds::RULE, 41) => Some(Frame::Rule(rule_of(line))),
        (kinds::EXTRA, 5) => Some(Frame::Extra(hex_lines::number(line, 1, 4))),
        (kinds::EXCEPTED, 5) => Some(Frame::Excepted(hex_lines::number(line, 1, 4))),
        (kinds::END, 2) => Some(Frame::End(hex_lines::number(line, 1, 1))),
        _ => None,
    }
}

// The frame that a line, without its LF, writes.
pub fn read(line: &[u8]) -> Option<Frame>
    ensures { result ≡ line_read line.now }
{
    if hex_lines::is_line(line) {
        frame_of(line)
    } else {
        None
    }
}

fn short_row(kind: u64, a: u64, b: u64) -> Row
    ensures { result ≡ as_row (kind ∷ a ∷ b ∷ []) }
{
    [kind, a, b, 0, 0, 0, 0, 0, 0, 0, 0, 0, 0, 0, 0, 0, 0, 0]
}

#[tactic(auto, unfolding(crate::specs::Rows::row_of))]
fn cron_row(f: Cron) -> Row
    ensures { result ≡ row_of (Frame.Cron f) }
{
    [
        kinds::CRON,
        f.minutes,
        f.hours,
        f.days,
        f.months,
        f.weekdays,
        f.flags,
        0,
        0,
        0,
        0,
        0,
        0,
        0,
        0,
        0,
        0,
        0,
    ]
}

#[tactic(auto, unfolding(crate::specs::Rows::row_of))]
fn rule_row(f: Rule) -> Row
    ensures { result ≡ row_of (Frame.Rule f) }
{
    let d = f.days;
    let o = f.ordinals;
    let p = f.positions;
    [
        kinds::RULE,
        f.frequency,
        f.interval,
        f.start,
        f.last,
        f.weekdays,
        d.front,
        d.back,
        o.front,
        o.back,
        p.front,
        p.back,
        f.months,
        0,
        0,
        0,
        0,
        0,
    ]
}

// A frame as the row of numbers that the search holds. A function with a promise of its own, as its way back: a `From` beside it would say the same.
#[tactic(auto, unfolding(crate::specs::Rows::row_of))]
pub fn row_of(frame: Frame) -> Row
    ensures { result ≡ row_of frame }
{
    match frame {
        Frame::Offset(o) => short_row(kinds::OFFSET, o, 0),
        Frame::Change(t) => short_row(kinds::CHANGE, t.at, t.offset),
        Frame::Cron(f) => cron_row(f),
        Frame::Rule(f) => rule_row(f),
        Frame::Extra(m) => short_row(kinds::EXTRA, m, 0),
        Frame::Excepted(m) => short_row(kinds::EXCEPTED, m, 0),
        Frame::End(n) => short_row(kinds::END, n, 0),
    }
}

// The frame that a row holds.
#[tactic(auto, unfolding(crate::specs::Rows::frame_in))]
pub fn frame_in(row: &Row) -> Frame
    ensures { result ≡ frame_in row.now }
{
    match row[places::KIND] {
        kinds::OFFSET => Frame::Offset(row[places::OFFSET]),
        kinds::CHANGE => Frame::Change(Transition {
            at: row[places::AT],
            offset: row[places::NEW_OFFSET],
        }),
        kinds::CRON => Frame::Cron(numbers::cron_of(row)),
        kinds::RULE => Frame::Rule(numbers::rule_of(row)),
        kinds::EXTRA => Frame::Extra(row[places::MINUTE]),
        kinds::EXCEPTED => Frame::Excepted(row[places::MINUTE]),
        _ => Frame::End(row[places::COUNT]),
    }
}

// The bytes of a frame's line with its LF.
pub fn length_of(frame: Frame) -> usize
    ensures { result ≡ length (whole_line frame) }
{
    puts::size_of(frame) + 1
}

// Writes a frame's line with its LF from place `at` on; the place after it, or `at` and no byte changed if it does not fit.
pub fn write(buf: &mut [u8], at: usize, frame: Frame) -> usize
    ensures { (result ≡ past_put buf.old at (whole_line frame)) × (buf.new ≡ put_at buf.old at (whole_line frame)) }
{
    let n = puts::size_of(frame);
    if buf.len().saturating_sub(at) <= n {
        return at;
    }
    let sizes = puts::widths_of(frame);
    let row = row_of(puts::moved_frame(frame));
    puts::put_row(buf, at, &sizes, &row);
    let end = at + n;
    buf[end] = lines::LF;
    end + 1
}
