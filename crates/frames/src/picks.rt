// The places of the days in a day set, and the days that positions pick.
ghost use Rattle.std.specs.Prelude.{◌≡◌, false, cond, ◌+◌, ◌^◌, ◌≤◌, ◌<◌};
ghost use Rattle.masks.specs.Masks.{bit, mask_from, with_bit};
ghost use Rattle.frames.specs.Months.{place_wanted};

use crate::{Ends, turns};

// Day n added where its place is wanted.
fn with_place(wanted: u64, place: u64, picked: u64, n: u64) -> u64
    ensures { result ≡ cond (bit wanted place) (with_bit picked n) picked }
{
    if masks::test(wanted, place) {
        return masks::with_bit(picked, n);
    }
    picked
}

// The days that positions pick from a day set.
pub(crate) fn picked(positions: Ends, set: u64, len: u64) -> u64
    requires { (len ≤ 31) × (bit set 0 ≡ false) × (set < 2 ^ (1 + len)) }
    ensures { result ≡ mask_from (place_wanted positions set) len 1 }
{
    let wanted = turns::both_ends(positions, masks::count_from(set, 0));
    let mut picked = 0;
    let mut passed = 0;
    // `1..=len` was tried: where len is 0 nothing is known of where its loop ends.
    for n in 1..len + 1 {
        if masks::test(set, n) {
            passed += 1;
            picked = with_place(wanted, passed, picked, n);
        }
    }
    picked
}
