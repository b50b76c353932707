// The signed edge: what C hands in becomes a natural, and what it gets back a signed number. Nothing above this crate has a sign
// but the exported functions.
#![tactic(auto)]

ghost use Rattle.std.specs.Prelude.{◌≡◌};
ghost use Rattle.signed.specs.Bias.{natural_of, whole_of, bias_day, unbias_day, bias_instant, unbias_instant};

// 0001-01-01 as C counts days, from 1970-01-01 on.
const FIRST_DAY: i64 = -719162;
// 9999-12-31.
const LAST_DAY: i64 = 2932896;
// A day number is moved up by so many days.
const DAY_BIAS: i64 = 719162;
// The days of the range; counted from 0001-01-01, the first day outside.
pub const DAYS: u64 = 3652059;
// The last day of the range, so counted.
pub const LAST: u64 = DAYS - 1;
// An instant is moved up by a day.
const INSTANT_BIAS: i64 = 1440;
// The earliest instant that is told apart from those before it.
const EARLIEST: i64 = -1440;
// The latest one: a day after the window.
const LATEST: i64 = 52597440;
// The latest one, moved up.
pub const LAST_INSTANT: u64 = 52598880;

// A number that counts from 1: 0 stands for every one below. With its promise it is one of the edge's own words, as `whole`.
pub fn natural(z: i64) -> u64
    ensures { result ≡ natural_of z }
{
    u64::try_from(z).unwrap_or(0)
}

// A natural as C gets it.
#[tactic(auto, unfolding(crate::specs::Bias::whole_of))]
pub fn whole(n: u64) -> i64
    ensures { result ≡ whole_of n }
{
    i64::try_from(n).unwrap_or(0)
}

// A day number as the day since 0001-01-01; 3,652,059 for every number outside the range.
#[tactic(auto, unfolding(crate::specs::Bias::bias_day))]
pub fn bias_day(z: i64) -> u64
    ensures { result ≡ bias_day z }
{
    if (FIRST_DAY..=LAST_DAY).contains(&z) {
        (z + DAY_BIAS) as u64
    } else {
        DAYS
    }
}

// The day number of a day since 0001-01-01.
#[tactic(auto, unfolding(crate::specs::Bias::unbias_day))]
pub fn unbias_day(n: u64) -> i64
    ensures { result ≡ unbias_day n }
{
    if LAST < n {
        return 0;
    }
    n as i64 - DAY_BIAS
}

// An instant moved up by a day, held to a day before and after the window.
#[tactic(auto, unfolding(crate::specs::Bias::bias_instant))]
pub fn bias_instant(z: i64) -> u64
    ensures { result ≡ bias_instant z }
{
    (z.clamp(EARLIEST, LATEST) + INSTANT_BIAS) as u64
}

// The instant of a number of the inside.
// Not one function with `unbias_day`: over both it would ask for the sizes of its bounds, and each would still be named to say its own definition.
#[tactic(auto, unfolding(crate::specs::Bias::unbias_instant))]
pub fn unbias_instant(n: u64) -> i64
    ensures { result ≡ unbias_instant n }
{
    if LAST_INSTANT < n {
        return 0;
    }
    n as i64 - INSTANT_BIAS
}
