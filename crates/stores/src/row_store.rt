ghost use Rattle.std.specs.Prelude.{◌≡◌, length};
ghost use Rattle.plans.specs.RowLists.{kept, taken};
ghost use Rattle.stores.specs.Puts.{PutSays};
ghost use Rattle.stores.specs.Rows.{left, left_bounded, one_some, RowsSay};

use crate::store::Store;
use bounds::refusal::Refusal;
use entries::clock_count::ClockCount;
use entries::entry::Entry;
use plans::row_list::RowList;

// A store that keeps its entries in the rows of a lent slice, a unit a row.
#[derive(Drop)]
pub struct RowStore<'a> {
    clocks: ClockCount,
    list: RowList<'a, Entry>,
}

impl<'a> RowStore<'a> {
    // An empty store. Rows after the first 1,000,000,000 go unused.
    pub fn new(clocks: ClockCount, rows: &'a mut [Entry]) -> RowStore<'a>
        ensures clocks { result.clocks ≡ clocks }
        ensures list { kept result.list ≡ record { rows = rows.entry.now; used = 0 } }
        ensures same { result.list.rows.ghost_name ≡ rows.entry.ghost_name }
    {
        let list = RowList::new(rows);
        RowStore { clocks, list }
    }

    // Puts an entry, and says so of the rows: one is written, the first that was not used, and no other changes.
    pub fn keep(&mut self, entry: Entry) -> Result<(), Refusal>
        ensures says { PutSays self.old.clocks.count 1 entry (taken (kept self.old.list)) (left (length self.old.list.rows.now) self.old.list.used) result (taken (kept self.new.list)) (left (length self.new.list.rows.now) self.new.list.used) }
        ensures rows { RowsSay (kept self.old.list) entry result (kept self.new.list) }
        ensures clocks { self.new.clocks ≡ self.old.clocks }
        ensures same { self.new.list.rows.ghost_name ≡ self.old.list.rows.ghost_name }
    {
        if !entry.is_for(self.clocks) {
            return Err(Refusal::Name);
        }
        if self.list.len() >= 1_000_000_000 {
            return Err(Refusal::Full);
        }
        self.list.push(entry).map_err(|_| Refusal::Full)?;
        Ok(())
    }
}

impl<'a> Store for RowStore<'a> {
    ghost dimension = { λ s. s.clocks.count };

    ghost counted = { λ s. record { least = s.clocks.least; most = s.clocks.most } };

    ghost entries = { λ s. taken (kept s.list) };

    ghost room = { λ s. left (length s.list.rows.now) s.list.used };

    ghost bounded = { λ s. left_bounded (length s.list.rows.now) s.list.used };

    ghost need = { λ _ _. 1 };

    ghost needs = { λ _ _. one_some };

    fn put(&mut self, entry: Entry) -> Result<(), Refusal> {
        self.keep(entry)
    }

    fn clocks(&self) -> ClockCount {
        self.clocks
    }

    fn count(&self) -> usize {
        self.list.rows().len()
    }

    fn read(&self, k: usize) -> Result<Entry, Refusal> {
        self.list.get(k)
    }
}
