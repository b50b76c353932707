// The days of a month that a frame holds, as a mask.
ghost use Rattle.std.specs.Prelude.{◌≡◌, true, false, ◌/◌, ◌<◌};
ghost use Rattle.calendar.specs.Window.{window_months};
ghost use Rattle.frames.specs.Kinds.{kind_in, rule_kind};
ghost use Rattle.frames.specs.Numbers.{start_month};
ghost use Rattle.frames.specs.Years.{year_counts};
ghost use Rattle.days.specs.Steps.{day_part};
ghost use Rattle.count.specs.Sets.{set_of, AllFrom, HeldSet};

use crate::{runs, turns};
use calendar::window;
use frames::places::Row;
use frames::{kinds, months, places};

// Whether the days from d on go by their month alone: past a rule's start, and with no interval of days or weeks but 1.
fn by_month(f: &Row, d: u64) -> bool
    ensures { (result ≡ true → AllFrom (day_part f.now) d) × (result ≡ false → kind_in f.now ≡ rule_kind) }
{
    if f[places::KIND] != kinds::RULE {
        return true;
    }
    if d < f[places::START] / window::DAY {
        return false;
    }
    turns::turn(f) == turns::width(f)
}

// The held days of a rule's month k, among the set that goes by the month: those from its start on that its interval counts.
fn counted_set(f: &Row, k: u64, set: u64) -> u64
    requires { (k < window_months) × (kind_in f.now ≡ rule_kind) × (set ≡ set_of f.now k) }
    ensures { HeldSet f.now k result }
{
    let first = window::month_first(k);
    let len = window::month_days(k);
    let begun = f[places::START] / window::DAY;
    let from = first.max(begun);
    if first + len <= from {
        return 0;
    }
    let width = turns::width(f);
    let turn = turns::turn(f);
    let place = turns::place(width, begun, from);
    runs::runs(set, from - first + 1, place % turn, width, turn, len)
}

// The held days of month k; `start` is the month of the start, `counts` are those of the month's year.
pub(crate) fn held_set(f: &Row, start: u64, counts: u64, k: u64) -> u64
    requires { (start ≡ start_month f.now) × (k < window_months) × (counts ≡ year_counts f.now (k / 12)) }
    ensures { HeldSet f.now k result }
{
    let set = months::month_set(f, start, counts, k);
    if by_month(f, window::month_first(k)) {
        return set;
    }
    counted_set(f, k, set)
}
