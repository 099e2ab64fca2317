ghost use Rattle.std.specs.Prelude.{◌≡◌};
ghost use Rattle.distances.specs.Listing.{Listed, ListSays};

use super::Search;
use bounds::refusal::Refusal;
use plans::plan::Plan;
use rounds::replies::Phase;
use stores::store::Store;

// Writes entry k, from 1, as its line at the start of the buffer and leaves the bytes after it; answers its length.
fn list_entry<S: Store>(store: &S, k: usize, buffer: &mut [u8]) -> Result<usize, Refusal>
    ensures { Listed (S.Store.dimension store.now) (S.Store.entries store.now) k buffer.old result buffer.new }
{
    store.read(k)?.write(store.clocks(), buffer)
}

impl<P: Plan, S: Store> Search<P, S> {
    // Its phase.
    pub fn phase(&self) -> Phase
        ensures { result ≡ self.now.phase }
    {
        self.phase
    }

    // How many rounds are finished.
    pub fn rounds(&self) -> u64
        ensures { result ≡ self.now.rounds }
    {
        self.rounds
    }

    // Writes entry k, from 1, as its line at the start of the buffer and leaves the bytes after it; answers its length.
    // Refused by Phase if unfit, then by Entry where there is no such entry, then by Buffer where the buffer is shorter; the buffer is then as it was.
    pub fn list(&self, k: usize, buffer: &mut [u8]) -> Result<usize, Refusal>
        ensures { ListSays (S.Store.dimension self.now.store) self.now.phase (S.Store.entries self.now.store) k buffer.old result buffer.new }
    {
        match self.phase {
            Phase::Unfit => Err(Refusal::Phase),
            Phase::Open | Phase::Closed | Phase::Stopped => list_entry(&self.store, k, buffer),
        }
    }
}
