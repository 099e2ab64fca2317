ghost use Rattle.std.specs.Prelude.{◌≡◌};
ghost use Rattle.distances.specs.Finds.{HoldTells, FindTells};

use crate::first::first_at;
use bounds::time::TimeDomain;
use stores::store::Store;
use zones::state::State;
use zones::zone::Zone;

// Whether the zone, of the time domain, holds the state.
fn has_state<T: TimeDomain>(zone: &Zone, time: &T, state: &State) -> bool
    ensures { HoldTells (T.allows time.now) (T.normal time.now) state.now.scale state.now.readings.now zone.now.codes result }
{
    zone.holds(time, state).unwrap_or(false)
}

// The round of the first entry at the position that holds the state.
pub fn find<S: Store, T: TimeDomain>(
    store: &S,
    time: &T,
    position: usize,
    state: &State,
) -> Option<u64>
    ensures { FindTells (T.allows time.now) (T.normal time.now) (S.Store.entries store.now) state.now.scale position state.now.readings.now result }
{
    first_at(store, position, |entry| has_state(&entry.zone, time, state)).map(|found| found.round)
}
