// Test entries for the comparison with the reference; no part of the public header.
#![tactic(auto)]

ghost use Rattle.std.specs.Prelude.{◌≡◌};
ghost use Rattle.zone.specs.Zone.{offset_at};
ghost use Rattle.zone.specs.Held.{offsets_of};
ghost use Rattle.zone.specs.Stretches.{stretch_local};
ghost use Rattle.held.specs.Lists.{first_of, list_least, list_last};
ghost use Rattle.days.specs.Search.{nth_day};
ghost use Rattle.line.specs.Lined.{context_as, lined};
ghost use Rattle.probe.specs.Probed.{instant_answer, context_of, line_answer, line_buffer};

use frames::places::{FRAMES, Row, Rows};
use line::{Before, Context};
use plan::text;
use zone::{Zone, stretch};

#[repr(C)]
#[derive(Clone, Copy)]
pub struct ProbeInstant {
    pub number: u64,
    pub instant: u64,
}

impl From<Option<u64>> for ProbeInstant {
    ghost from_gives = { λ found answer. answer ≡ instant_answer found };

    fn from(found: Option<u64>) -> ProbeInstant {
        match found {
            Some(instant) => ProbeInstant { number: 0, instant },
            None => ProbeInstant {
                number: 5,
                instant: 0,
            },
        }
    }
}

#[unsafe(no_mangle)]
pub extern "C" fn probe_offset_at(zone: Zone, instant: u64) -> u64
    ensures { result ≡ offset_at (offsets_of zone) instant }
{
    zone::offset_at(&zone, instant)
}

#[unsafe(no_mangle)]
pub extern "C" fn probe_instant_of_local(zone: Zone, m: u64) -> ProbeInstant
    ensures { result ≡ instant_answer (stretch_local (offsets_of zone) m) }
{
    stretch::instant_of_local(&zone, m).into()
}

// The least held local minute of frames in a range, or the range's end; of an empty range low.
#[unsafe(no_mangle)]
pub extern "C" fn probe_list_least(fs: &Rows, count: usize, low: u64, high: u64) -> u64
    ensures { result ≡ list_least (first_of count fs.now) low high }
{
    held::lists::list_least(&fs[..count.min(FRAMES)], low, high)
}

// One more than the greatest held local minute of frames in a range, or the range's start.
#[unsafe(no_mangle)]
pub extern "C" fn probe_list_last(fs: &Rows, count: usize, low: u64, high: u64) -> u64
    ensures { result ≡ list_last (first_of count fs.now) low high }
{
    held::lists::list_last(&fs[..count.min(FRAMES)], low, high)
}

// The day of the count-th occurrence of a rule from a day on, or the first day past 2099.
#[unsafe(no_mangle)]
pub extern "C" fn probe_nth_day(f: &Row, count: u64, low: u64) -> u64
    ensures { result ≡ nth_day f.now count low }
{
    count::nth_day(f, count, low)
}

#[repr(C)]
#[derive(Clone, Copy)]
pub struct ProbeLine {
    pub number: u64,
    pub length: u64,
}

// What stands before a line, by the number that C gives: 0 nothing, 1 a Z and so many T, any other number other lines.
fn context_of(before: u64, changes: u64, low: u64, offset: u64) -> Context
    ensures { result ≡ context_of before changes low offset }
{
    let before = match before {
        0 => Before::Start,
        1 => Before::Zoned(changes),
        _ => Before::Lines,
    };
    Context {
        before,
        low,
        offset,
    }
}

// A sheet line without its LF: 0 and the frame's line at the buffer's front, or its refusal and the buffer as it was. A frame for which there is no
// room is 0 and length 0, and the buffer is as it was.
#[unsafe(no_mangle)]
pub extern "C" fn probe_line(
    s: &[u8],
    before: u64,
    changes: u64,
    low: u64,
    offset: u64,
    frame: &mut [u8],
) -> ProbeLine
    ensures { (result ≡ line_answer frame.old (lined (context_as (context_of before changes low offset)) s.now)) × (frame.new ≡ line_buffer frame.old (lined (context_as (context_of before changes low offset)) s.now)) }
{
    match line::read(s, context_of(before, changes, low, offset)) {
        Ok(f) => ProbeLine {
            number: 0,
            length: text::write(frame, 0, f) as u64,
        },
        Err(refusal) => ProbeLine {
            number: refusal.number(),
            length: 0,
        },
    }
}
