// Bits of a mask: bit n stands for n. A mask is a number and no type, stored as one in rows and in lines of a plan; 64 and 0 for none are ends of the range, by which callers go on.
#![tactic(auto)]

ghost use Rattle.std.specs.Prelude.{◌≡◌};
ghost use Rattle.masks.specs.Masks.{bit, with_bit, next_bit, previous_bit, bits_from};

pub mod time;

// Whether bit n is set.
pub fn test(mask: u64, n: u64) -> bool
    ensures { result ≡ bit mask n }
{
    n < 64 && (mask >> n) % 2 == 1
}

// The mask with bit n set; past bit 63 as it was.
pub fn with_bit(mask: u64, n: u64) -> u64
    ensures { result ≡ with_bit mask n }
{
    if 63 < n {
        return mask;
    }
    mask | (1 << n)
}

// The least set bit at or above n; 64 where there is none.
pub fn next_bit(mask: u64, n: u64) -> u64
    ensures { result ≡ next_bit mask n }
{
    if 63 < n {
        return 64;
    }
    u64::from(((mask >> n) << n).trailing_zeros())
}

// One more than the greatest set bit below n; 0 where there is none.
pub fn previous_bit(mask: u64, n: u64) -> u64
    ensures { result ≡ previous_bit mask n }
{
    if 63 < n {
        return 64 - u64::from(mask.leading_zeros());
    }
    64 - u64::from((mask % (1 << n)).leading_zeros())
}

// How many bits at or above n are set.
pub fn count_from(mask: u64, n: u64) -> u64
    ensures { result ≡ bits_from mask n }
{
    if 63 < n {
        return 0;
    }
    u64::from((mask >> n).count_ones())
}
