// A frame's line as numbers, each with its bytes, and these put into a buffer.
ghost use Rattle.std.specs.Prelude.{◌≡◌, ◌+◌, ◌*◌, ◌^◌, ◌≤◌, length};
ghost use Rattle.hex_lines.proofs.Fields.{hexes, widths, total};
ghost use Rattle.hex_lines.specs.Hex.{put_at};
ghost use Rattle.plan.specs.Fits.{frame_widths, pairs_at};
ghost use Rattle.plan.specs.Text.{moved, moved_frame, frame_line};

use crate::Frame;
use frames::places::{NUMBERS, Row};
use zone::Transition;

// How many numbers so many bytes write. They are bounded by a clause, here and in text: callers write 2 or 4.
pub(crate) fn numbers_of(bytes: usize) -> u64
    requires { bytes ≤ 7 }
    ensures { result ≡ 256 ^ bytes }
{
    1 << (8 * bytes)
}

// The bytes of the line without its LF.
#[tactic(auto, unfolding(crate::specs::Text::frame_line, hex_lines::specs::Hex::hex_of))]
pub(crate) fn size_of(frame: Frame) -> usize
    ensures { result ≡ length (frame_line frame) }
{
    match frame {
        Frame::Offset(_) => 6,
        Frame::Change(_) => 14,
        Frame::Cron(_) => 42,
        Frame::Rule(_) => 82,
        Frame::Extra(_) | Frame::Excepted(_) => 10,
        Frame::End(_) => 4,
    }
}

// How many bytes the kind and each field have.
#[tactic(auto, unfolding(crate::specs::Fits::frame_widths, crate::specs::Fits::frame_fields))]
pub(crate) fn widths_of(frame: Frame) -> [usize; NUMBERS]
    ensures { result ≡ frame_widths frame }
{
    match frame {
        Frame::Offset(_) => [1, 2, 0, 0, 0, 0, 0, 0, 0, 0, 0, 0, 0, 0, 0, 0, 0, 0],
        Frame::Change(_) => [1, 4, 2, 0, 0, 0, 0, 0, 0, 0, 0, 0, 0, 0, 0, 0, 0, 0],
        Frame::Cron(_) => [1, 8, 4, 4, 2, 1, 1, 0, 0, 0, 0, 0, 0, 0, 0, 0, 0, 0],
        Frame::Rule(_) => [1, 1, 2, 4, 4, 1, 4, 4, 5, 5, 4, 4, 2, 0, 0, 0, 0, 0],
        Frame::Extra(_) | Frame::Excepted(_) => [
            1, 4, 0, 0, 0, 0, 0, 0, 0, 0, 0, 0, 0, 0, 0, 0, 0, 0,
        ],
        Frame::End(_) => [1, 1, 0, 0, 0, 0, 0, 0, 0, 0, 0, 0, 0, 0, 0, 0, 0, 0],
    }
}

// Moved down by a day, as so many bytes of two's complement.
#[tactic(auto, unfolding(crate::specs::Text::moved))]
fn moved(v: u64, bytes: usize) -> u64
    requires { (2 ≤ bytes) × (bytes ≤ 7) }
    ensures { result ≡ moved bytes v }
{
    let numbers = numbers_of(bytes);
    (v % numbers + (numbers - zone::BIAS)) % numbers
}

// The frame with its offsets and instants as its line has them.
#[tactic(auto, unfolding(crate::specs::Text::moved_frame))]
pub(crate) fn moved_frame(frame: Frame) -> Frame
    ensures { result ≡ moved_frame frame }
{
    match frame {
        Frame::Offset(o) => Frame::Offset(moved(o, 2)),
        Frame::Change(t) => Frame::Change(Transition {
            at: moved(t.at, 4),
            offset: moved(t.offset, 2),
        }),
        _ => frame,
    }
}

// Puts each number as so many bytes, one after the other. The widths stand beside the row, which is also what the search holds.
pub(crate) fn put_row(buf: &mut [u8], at: usize, sizes: &[usize; NUMBERS], row: &Row)
    requires { at + 2 * total (widths (pairs_at sizes.now row.now 0)) ≤ length buf.old }
    ensures { buf.new ≡ put_at buf.old at (hexes (pairs_at sizes.now row.now 0)) }
{
    let mut place = at;
    for (size, number) in sizes.iter().zip(row) {
        hex_lines::put(buf, place, *size, *number);
        place += 2 * *size;
    }
}
