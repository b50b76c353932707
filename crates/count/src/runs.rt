// Runs of a mask's bits that come round again.
ghost use Rattle.std.specs.Prelude.{◌≡◌, ◌+◌, ◌<◌};
ghost use Rattle.masks.specs.Masks.{bit, mask_from};
ghost use Rattle.count.specs.Runs.{Runs, Within};

// `wide` bits of a mask from `low` on.
fn span(mask: u64, low: u64, wide: u64) -> u64
    requires { low + wide < 64 }
    ensures { result ≡ mask_from (bit mask) wide low }
{
    ((mask >> low) % (1 << wide)) << low
}

// The bits of a mask from n up to len, where bit n has the place x in a turn: those in the first `width` places of one.
pub(crate) fn runs(mask: u64, n: u64, x: u64, width: u64, turn: u64, len: u64) -> u64
    requires { Within mask n x width turn len }
    ensures { Runs mask n x width turn len result }
{
    let mut kept = span(mask, n, width.saturating_sub(x));
    let mut at = n + (turn - x);
    // No `step_by`: its step is a usize, and the cast would make it no plainer.
    while at <= len {
        kept |= span(mask, at, width);
        at += turn;
    }
    kept
}
