// The zone of a loaded plan.
ghost use Rattle.std.specs.Prelude.{◌≡◌};
ghost use Rattle.load.specs.Zones.{zone_of};

use frames::places::Rows;
use frames::{kinds, places};
use zone::{CHANGES, Transition, Zone};

// The rows that can hold a zone: its first offset, and the transitions.
const ZONE_ROWS: usize = CHANGES + 1;

// The zone that the first rows hold: the first one's offset, and the transitions right after it. Rows with a count, and no slice of so many: of none it
// is the first row's offset too. Not in line: the zone would be copied once more.
#[inline(never)]
#[tactic(auto, using(crate::proofs::ZoneRows::rest_first, crate::proofs::ZoneRows::rest_stops, crate::proofs::ZoneRows::rest_on, crate::proofs::ZoneRows::rest_none))]
pub fn zone_of(rows: &Rows, count: usize) -> Zone
    ensures { result ≡ zone_of rows.now count }
{
    let mut zone = Zone {
        first: rows[0][places::OFFSET],
        count: 0,
        changes: [Transition { at: 0, offset: 0 }; CHANGES],
    };
    let changes = &rows[1..count.clamp(1, ZONE_ROWS)];
    for (k, row) in changes.iter().enumerate() {
        if row[places::KIND] != kinds::CHANGE {
            return zone;
        }
        zone.changes[k] = Transition {
            at: row[places::AT],
            offset: row[places::NEW_OFFSET],
        };
        zone.count = k + 1;
    }
    zone
}
