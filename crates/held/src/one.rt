// A range of which one single number may be wanted.
ghost use Rattle.std.specs.Prelude.{◌≤◌, eqb};
ghost use Rattle.calendar.proofs.Leasts.{Least, Last};

// The number n if it is in the range from low up to high, else high.
pub(crate) fn least_one(n: u64, low: u64, high: u64) -> u64
    requires { low ≤ high }
    ensures { Least (λ m. eqb m n) low high result }
{
    if (low..high).contains(&n) { n } else { high }
}

// One more than n if it is in the range, else low.
pub(crate) fn last_one(n: u64, low: u64, high: u64) -> u64
    requires { low ≤ high }
    ensures { Last (λ m. eqb m n) low high result }
{
    if (low..high).contains(&n) { n + 1 } else { low }
}
