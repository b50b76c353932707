// Masks whose bits count from both ends.
ghost use Rattle.std.specs.Prelude.{◌≡◌, ◌||◌, ℕ, ◌+◌, ◌-◌, ◌≤◌};
ghost use Rattle.masks.specs.Masks.{bit};

use crate::Ends;

// The numbers of the low half of the bits.
const LOW_HALF: u64 = 4294967296;

// `len ≤ 31` and no type here and in picks: it is the length of a month, or how many days of it were counted.
// The places 1 to `len` that a mask counts from the end, counted from the front. No place is past 31, so the low half is turned.
fn turned(mask: u64, len: u64) -> u64
    requires { len ≤ 31 }
    ensures { (n : ℕ) → 1 ≤ n → n ≤ len → bit result n ≡ bit mask (len + 1 - n) }
{
    let low = (mask % LOW_HALF) as u32;
    (u64::from(low.reverse_bits()) >> (31 - len)) * 2
}

// The places 1 to `len` that are wanted, counted from the front or from the end.
pub(crate) fn both_ends(wanted: Ends, len: u64) -> u64
    requires { len ≤ 31 }
    ensures { (n : ℕ) → 1 ≤ n → n ≤ len → bit result n ≡ (bit wanted.front n || bit wanted.back (len + 1 - n)) }
{
    if wanted.back == 0 {
        return wanted.front;
    }
    wanted.front | turned(wanted.back, len)
}
