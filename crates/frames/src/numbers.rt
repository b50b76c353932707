// The fields of a frame from its row. Functions and no `From<&Row>`: a row of any kind is one type, so no conversion of it is the only one.
ghost use Rattle.std.specs.Prelude.{◌≡◌};
ghost use Rattle.frames.specs.Numbers.{cron_of, rule_of};

use crate::places::Row;
use crate::{Cron, Ends, Rule, places};

pub fn cron_of(f: &Row) -> Cron
    ensures { result ≡ cron_of f.now }
{
    Cron {
        minutes: f[places::MINUTES],
        hours: f[places::HOURS],
        days: f[places::DAYS],
        months: f[places::MONTHS],
        weekdays: f[places::WEEKDAYS],
        flags: f[places::FLAGS],
    }
}

pub(crate) fn positions_of(f: &Row) -> Ends
    ensures { result ≡ (rule_of f.now).positions }
{
    Ends {
        front: f[places::POSITIONS_FRONT],
        back: f[places::POSITIONS_BACK],
    }
}

pub fn rule_of(f: &Row) -> Rule
    ensures { result ≡ rule_of f.now }
{
    Rule {
        frequency: f[places::FREQUENCY],
        interval: f[places::INTERVAL],
        start: f[places::START],
        last: f[places::LAST],
        weekdays: f[places::WEEKDAYS],
        days: Ends {
            front: f[places::DAYS_FRONT],
            back: f[places::DAYS_BACK],
        },
        ordinals: Ends {
            front: f[places::ORDINALS_FRONT],
            back: f[places::ORDINALS_BACK],
        },
        positions: positions_of(f),
        months: f[places::RULE_MONTHS],
    }
}
