// Numbers and masks within their limits.
ghost use Rattle.std.specs.Prelude.{◌≡◌, ◌||◌, ◌<◌, eqb};
ghost use Rattle.masks.specs.Masks.{bit};
ghost use Rattle.plan.specs.Taken.{only_bits, mask_good, pair_good};

use frames::Ends;

// No bit but low to high.
pub(crate) fn only_bits(mask: u64, low: u64, high: u64) -> bool
    requires { (low < 64) × (high < 63) }
    ensures { result ≡ only_bits low high mask }
{
    mask % (1 << low) == 0 && mask < 1 << (high + 1)
}

pub(crate) fn mask_good(mask: u64, low: u64, high: u64) -> bool
    requires { (low < 64) × (high < 63) }
    ensures { result ≡ mask_good low high mask }
{
    mask != 0 && only_bits(mask, low, high)
}

// A set flag, or a full mask.
pub(crate) fn flag_good(flags: u64, n: u64, mask: u64, full: u64) -> bool
    ensures { result ≡ (bit flags n || eqb mask full) }
{
    masks::test(flags, n) || mask == full
}

pub(crate) fn pair_good(e: Ends) -> bool
    ensures { result ≡ pair_good e }
{
    only_bits(e.front, 1, 31) && only_bits(e.back, 1, 31)
}
