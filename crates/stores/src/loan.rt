use crate::store::Store;
use bounds::refusal::Refusal;
use entries::clock_count::ClockCount;
use entries::entry::Entry;

// A store that is lent is a store: whoever lent it has it back afterwards, with what was put.
impl<S: Store> Store for &mut S {
    ghost dimension = { λ s. S.Store.dimension s.now };

    ghost counted = { λ s. S.Store.counted s.now };

    ghost entries = { λ s. S.Store.entries s.now };

    ghost room = { λ s. S.Store.room s.now };

    ghost bounded = { λ s. S.Store.bounded s.now };

    ghost need = { S.Store.need };

    ghost needs = { S.Store.needs };

    fn put(&mut self, entry: Entry) -> Result<(), Refusal> {
        (**self).put(entry)
    }

    fn clocks(&self) -> ClockCount {
        (**self).clocks()
    }

    fn count(&self) -> usize {
        (**self).count()
    }

    fn read(&self, k: usize) -> Result<Entry, Refusal> {
        (**self).read(k)
    }
}
