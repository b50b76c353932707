// A bit of a mask by its place among the set ones.
ghost use Rattle.std.specs.Prelude.{◌≡◌, ◌-◌, ◌≤◌};
ghost use Rattle.days.specs.Search.{nth_from};
ghost use Rattle.masks.specs.Masks.{bit};

// What answers for a bit where a mask has none.
const NONE: u64 = 64;

// The count-th set bit at or above n; 64 where there are fewer.
pub(crate) fn nth_bit(mask: u64, n: u64, count: u64) -> u64
    requires { (n ≤ 64) × (1 ≤ count) }
    ensures { result ≡ nth_from (bit mask) count (64 - n) n }
{
    let mut at = n;
    for _passed in 1..count {
        let next = masks::next_bit(mask, at);
        if NONE <= next {
            return NONE;
        }
        at = next + 1;
    }
    masks::next_bit(mask, at)
}
