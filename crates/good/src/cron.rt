// A cron frame's fields and flags.
ghost use Rattle.std.specs.Prelude.{◌≡◌};
ghost use Rattle.plan.specs.Taken.{cron_good};

use crate::bits::{flag_good, mask_good};
use frames::limits::{EVERY_DAY, EVERY_MONTH, EVERY_WEEKDAY};
use frames::{Cron, kinds};

// The three flags together are less.
const FLAGS_END: u64 = 8;

#[tactic(auto, unfolding(plan::specs::Taken::cron_good))]
pub(crate) fn cron_good(f: Cron) -> bool
    ensures { result ≡ cron_good f }
{
    mask_good(f.minutes, 0, 59)
        && mask_good(f.hours, 0, 23)
        && mask_good(f.days, 1, 31)
        && mask_good(f.months, 1, 12)
        && mask_good(f.weekdays, 0, 6)
        && f.flags < FLAGS_END
        && flag_good(f.flags, kinds::DAY_FLAG, f.days, EVERY_DAY)
        && flag_good(f.flags, kinds::WEEKDAY_FLAG, f.weekdays, EVERY_WEEKDAY)
        && flag_good(f.flags, kinds::MONTH_FLAG, f.months, EVERY_MONTH)
}
