// Several frames together: the least and the last minute that some frame holds and no excepted minute names.
ghost use Rattle.std.specs.Prelude.{◌≡◌, ◌≤◌};
ghost use Rattle.std.specs.List.{list_any};
ghost use Rattle.calendar.specs.Window.{window_minutes};
ghost use Rattle.calendar.proofs.Leasts.{Least, Last};
ghost use Rattle.held.specs.Lists.{frame_excepts, any_held, list_least, list_last};

use crate::minutes;
use calendar::window;
use frames::places::Row;
use frames::{kinds, places};

// The least minute that one of the frames holds: the best found so far bounds the later frames' search.
fn any_least(fs: &[Row], low: u64, high: u64) -> u64
    requires { (low ≤ high) × (high ≤ window_minutes) }
    ensures { Least (any_held fs.now) low high result }
{
    let mut best = high;
    for f in fs {
        best = minutes::least_minute(f, low, best);
    }
    best
}

// One more than the greatest minute that one of the frames holds.
fn any_last(fs: &[Row], low: u64, high: u64) -> u64
    requires { (low ≤ high) × (high ≤ window_minutes) }
    ensures { Last (any_held fs.now) low high result }
{
    let mut best = low;
    for f in fs {
        best = minutes::last_minute(f, best, high);
    }
    best
}

#[tactic(auto, unfolding(crate::specs::Lists::frame_excepts))]
fn excepts(f: &Row, minute: u64) -> bool
    ensures { result ≡ frame_excepts f.now minute }
{
    f[places::KIND] == kinds::EXCEPTED && minute == f[places::MINUTE]
}

// Whether one of the frames excepts the minute.
fn excepted(fs: &[Row], minute: u64) -> bool
    ensures { result ≡ list_any (λ f. frame_excepts f minute) fs.now }
{
    fs.iter().any(|f| excepts(f, minute))
}

// The least held minute of the frames from low up to high, or where that range ends; of an empty range low.
pub fn list_least(fs: &[Row], low: u64, high: u64) -> u64
    ensures { result ≡ list_least fs.now low high }
{
    let end = high.min(window::MINUTES);
    if end <= low {
        return low;
    }
    let mut from = low;
    // A search, and no loop over an index: an excepted minute is passed, and it goes on from there.
    while from < end {
        let minute = any_least(fs, from, end);
        if end <= minute {
            return end;
        }
        if !excepted(fs, minute) {
            return minute;
        }
        from = minute + 1;
    }
    end
}

// One more than the greatest held minute of the frames from low up to high, or low.
pub fn list_last(fs: &[Row], low: u64, high: u64) -> u64
    ensures { result ≡ list_last fs.now low high }
{
    let end = high.min(window::MINUTES);
    let mut to = end;
    while low < to {
        let past = any_last(fs, low, to);
        if past <= low {
            return low;
        }
        if !excepted(fs, past - 1) {
            return past;
        }
        to = past - 1;
    }
    low
}
