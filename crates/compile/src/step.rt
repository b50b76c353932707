// One line of a sheet more: its frames, and what stands before the next line.
ghost use Rattle.std.specs.Prelude.{◌≡◌, true, ◌*◌, ◌<◌, ◌≤◌};
ghost use Rattle.line.specs.Lined.{context_as, lined};
ghost use Rattle.compile.specs.Steps.{room_for, one_more, frame_fits, next_context, stepped, rows_with};

use frames::places::Rows;
use line::{Before, Context};
use plan::{Frame, text};
use zone::limits;

// What the lines so far leave: what stands before the next one, how many lines were read, how many rows are filled, and the bytes of their plan lines.
#[derive(Clone, Copy)]
pub(crate) struct State {
    pub context: Context,
    pub lines: usize,
    pub frames: usize,
    pub bytes: usize,
}

// Before the first line.
pub(crate) fn start() -> State
    ensures { result ≡ record { context = record { before = Before.Start; low = 0; offset = 0 }; lines = 0; frames = 0; bytes = 0 } }
{
    State {
        context: Context {
            before: Before::Start,
            low: 0,
            offset: 0,
        },
        lines: 0,
        frames: 0,
        bytes: 0,
    }
}

// After one transition more; a transition stands after the zone alone.
fn one_more(before: Before) -> Before
    requires { room_for before ≡ true }
    ensures { result ≡ one_more before }
{
    match before {
        Before::Zoned(k) => Before::Zoned(k + 1),
        _ => Before::Lines,
    }
}

fn context_after(c: Context, frame: Frame) -> Context
    requires { frame_fits c frame ≡ true }
    ensures { result ≡ next_context c frame }
{
    match frame {
        Frame::Offset(offset) => Context {
            before: Before::Zoned(0),
            low: 0,
            offset,
        },
        Frame::Change(t) => Context {
            before: one_more(c.before),
            low: t.at + limits::DISTANCE,
            offset: t.offset,
        },
        _ => Context {
            before: Before::Lines,
            ..c
        },
    }
}

// Reads a line once, and keeps its frame in the next row.
pub(crate) fn step(s: State, line: &[u8], rows: &mut Rows) -> Result<State, line::Refusal>
    requires lines_bound { s.lines < 64 }
    requires frames_bound { s.frames < 64 }
    requires bytes_bound { s.bytes ≤ 64 * 83 }
    ensures answer { result ≡ stepped s (lined (context_as s.context) line.now) }
    ensures rows { rows.new ≡ rows_with rows.old s.frames (lined (context_as s.context) line.now) }
{
    let frame = line::read(line, s.context)?;
    rows[s.frames] = text::row_of(frame);
    Ok(State {
        context: context_after(s.context, frame),
        lines: s.lines + 1,
        frames: s.frames + 1,
        bytes: s.bytes + text::length_of(frame),
    })
}
