// The day set of a yearly rule's year, counted month by month: twelve counts in one number, five bits each, January's the lowest.
ghost use Rattle.std.specs.Prelude.{◌≡◌, true, ◌*◌, ◌<◌, ◌≤◌};
ghost use Rattle.calendar.specs.Window.{window_months};
ghost use Rattle.frames.specs.Numbers.{rule_of};
ghost use Rattle.frames.specs.Years.{yearly, day_count, packed, packed_sum, reach_back, outer, reached, FromFront, year_placed, year_counts, left_of, none_counted, positions_in, bared, Bare};
ghost use Rattle.frames.specs.Kinds.{rule_kind, is_kind};

use crate::limits::no_limit;
use crate::places::Row;
use crate::{Ends, kinds, months, numbers, places};

// The years of the window.
const YEARS: u64 = 100;
// The values of a count.
const COUNT: u64 = 32;

// Its bits.
const WIDTH: u64 = 5;

// The frame with its whole day set in every month: as a daily one, without positions.
#[tactic(auto, unfolding(crate::specs::Years::bared))]
fn bare(f: &Row) -> Row
    ensures { result ≡ bared f.now }
{
    let mut g = *f;
    g[places::FREQUENCY] = kinds::DAILY;
    g[places::POSITIONS_FRONT] = 0;
    g[places::POSITIONS_BACK] = 0;
    g
}

// A bare row has no type of its own, nor has a year below 100: what reads a row takes any, and a year is asked for as a month over 12.
// The days of month k in the day set of a daily frame without positions.
fn day_count(g: &Row, k: u64) -> u64
    requires { (k < window_months) × (Bare g.now) }
    ensures { result ≡ day_count (rule_of g.now) k }
{
    masks::count_from(months::month_set(g, 0, 0, k), 0)
}

// How many months were counted, and their counts.
#[derive(Clone, Copy)]
struct Reached {
    months: u64,
    counts: u64,
}

// The months of year 2000 + y from January on, as far as a mask of places can reach.
fn from_front(g: &Row, y: u64, mask: u64) -> Reached
    requires { (y < 100) × (Bare g.now) }
    ensures { FromFront (day_count (rule_of g.now)) mask (12 * y) result }
{
    let mut left = mask;
    let mut counts = 0;
    for m in 0..12 {
        if left < 2 {
            return Reached { months: m, counts };
        }
        let here = day_count(g, 12 * y + m);
        counts += here << (WIDTH * m);
        left >>= here;
    }
    Reached { months: 12, counts }
}

// And from December down, the first so many aside: no twin, since it ends where those begin.
fn from_back(g: &Row, y: u64, mask: u64, front: Reached) -> u64
    requires { (y < 100) × (Bare g.now) × (front.months ≤ 12) × (front.counts ≡ packed (outer (day_count (rule_of g.now)) (12 * y) front.months 0) 12 (12 * y)) }
    ensures { result ≡ packed (outer (day_count (rule_of g.now)) (12 * y) front.months (reach_back (day_count (rule_of g.now)) mask 12 (12 * y))) 12 (12 * y) }
{
    let mut left = mask;
    let mut counts = front.counts;
    for m in (front.months..12).rev() {
        if left < 2 {
            return counts;
        }
        let here = day_count(g, 12 * y + m);
        counts += here << (WIDTH * m);
        left >>= here;
    }
    counts
}

// The counts of year 2000 + y, as far as the frame's positions can reach.
fn counted(f: &Row, y: u64) -> u64
    requires { (y < 100) × (is_kind rule_kind f.now ≡ true) }
    ensures { result ≡ reached (rule_of f.now) y }
{
    let g = bare(f);
    let front = from_front(&g, y, f[places::POSITIONS_FRONT]);
    from_back(&g, y, f[places::POSITIONS_BACK], front)
}

// Whether a frame is a yearly rule.
pub fn is_yearly(f: &Row) -> bool
    ensures { result ≡ yearly f.now }
{
    f[places::KIND] == kinds::RULE && f[places::FREQUENCY] == kinds::YEARLY
}

// Whether the frame's positions count over a year.
#[tactic(auto, unfolding(crate::specs::Years::year_placed))]
pub fn is_placed(f: &Row) -> bool
    ensures { result ≡ year_placed f.now }
{
    is_yearly(f) && !no_limit(numbers::positions_of(f))
}

// The counts of year 2000 + y where the frame's positions go by them, else 0.
#[tactic(auto, using(crate::proofs::YearSets::no_counts), unfolding(crate::specs::Years::year_counts, crate::specs::Years::year_placed))]
pub fn year_counts(f: &Row, y: u64) -> u64
    ensures { result ≡ year_counts f.now y }
{
    if y < YEARS && is_placed(f) {
        return counted(f, y);
    }
    0
}

// The sum of the n lowest counts.
fn sum(counts: u64, n: u64) -> u64
    requires { n ≤ 12 }
    ensures { result ≡ packed_sum n counts }
{
    let mut passed = 0;
    for i in 0..n {
        passed += (counts >> (WIDTH * i)) % COUNT;
    }
    passed
}

// Of a mask the places that are left for a month of so many days, with so many in others before it, or after it.
fn left_of(mask: u64, others: u64, here: u64) -> u64
    requires { here < 32 }
    ensures { result ≡ left_of mask others here }
{
    if 63 < others {
        return 0;
    }
    (mask >> others) % (1 << (here + 1))
}

// Whether these counts of a yearly rule have no day of month k.
#[tactic(auto, using(crate::proofs::YearSets::five_bits), unfolding(crate::specs::Years::none_counted))]
pub(crate) fn none_counted(f: &Row, counts: u64, k: u64) -> bool
    ensures { result ≡ none_counted (rule_of f.now) counts k }
{
    f[places::FREQUENCY] == kinds::YEARLY && (counts >> (WIDTH * (k % 12))) % COUNT == 0
}

// The positions for month k.
#[tactic(auto, using(crate::proofs::YearSets::five_bits), unfolding(crate::specs::Years::positions_in))]
pub(crate) fn positions_in(f: &Row, counts: u64, k: u64) -> Ends
    ensures { result ≡ positions_in (rule_of f.now) counts k }
{
    let positions = numbers::positions_of(f);
    if f[places::FREQUENCY] != kinds::YEARLY {
        return positions;
    }
    let m = k % 12;
    let here = (counts >> (WIDTH * m)) % COUNT;
    let before = sum(counts, m);
    let after = sum(counts >> (WIDTH * (m + 1)), 11 - m);
    Ends {
        front: left_of(positions.front, before, here),
        back: left_of(positions.back, after, here),
    }
}
