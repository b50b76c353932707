// Frames as the lines of a plan, then the end frame.
ghost use Rattle.std.specs.Prelude.{[], ◌∷◌, ◌++◌, map, ◌≡◌, ◌≤◌, length};
ghost use Rattle.hex_lines.specs.Hex.{put_at};
ghost use Rattle.plan.specs.Rows.{frame_in};
ghost use Rattle.plan.specs.Text.{plan_text};
ghost use Rattle.plan.specs.declared.Frame.{Frame};

use frames::places::Row;
use plan::{Frame, text};

pub(crate) fn write(plan: &mut [u8], rows: &[Row])
    requires { length (plan_text (map frame_in rows.now ++ (Frame.End (length rows.now) ∷ []))) ≤ length plan.old }
    ensures { plan.new ≡ put_at plan.old 0 (plan_text (map frame_in rows.now ++ (Frame.End (length rows.now) ∷ []))) }
{
    let mut at = 0;
    for row in rows {
        at = text::write(plan, at, text::frame_in(row));
    }
    text::write(plan, at, Frame::End(rows.len() as u64));
}
