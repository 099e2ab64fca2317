ghost use Rattle.std.specs.Prelude.{◌≡◌};
ghost use Rattle.distances.specs.Covers.{WithinTells, CoverTells};

use crate::first::first_at;
use bounds::time::TimeDomain;
use stores::store::Store;
use zones::zone::Zone;

// Whether every state of the zone lies in the other; both are of the time domain.
fn lies_within<T: TimeDomain>(zone: &Zone, other: &Zone, time: &T) -> bool
    ensures { WithinTells (T.normal time.now) zone.now.codes other.now.codes result }
{
    zone.within(other, time).unwrap_or(false)
}

// Whether one held zone at the position has the zone within it.
pub fn is_covered<S: Store, T: TimeDomain>(
    store: &S,
    time: &T,
    position: usize,
    zone: &Zone,
) -> bool
    ensures { CoverTells (T.normal time.now) (S.Store.entries store.now) position zone.now.codes result }
{
    first_at(
        store,
        position,
        |entry| lies_within(zone, &entry.zone, time),
    )
    .is_some()
}
