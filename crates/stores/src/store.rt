ghost use Rattle.std.specs.Prelude.{◌≡◌, ℕ, ◌≤◌, List, length};
ghost use Rattle.plans.specs.Items.{Item};
ghost use Rattle.entries.specs.declared.entry.Entry.{Entry};
ghost use Rattle.stores.specs.Puts.{Counted, PutSays};

use bounds::refusal::Refusal;
use entries::clock_count::ClockCount;
use entries::entry::Entry;

// A store, by its meaning: for how many clocks its entries are, the entries in the order taken, and the room for more.
// Nothing but `put` changes any of them.
pub trait Store {
    // For how many clocks, 1 to 8.
    ghost dimension: { Self → ℕ };

    ghost counted: { (s : Self) → Counted (dimension s) };

    ghost entries: { Self → List Entry };

    // How many units are left.
    ghost room: { Self → ℕ };

    ghost bounded: { (s : Self) → room s ≤ 1000000000 };

    // How many units an entry takes up in a store for so many clocks.
    ghost need: { ℕ → Entry → ℕ };

    ghost needs: { (n : ℕ) (e : Entry) → 1 ≤ need n e };

    // Takes an entry in as the last; refuses, by Name, what is no entry for its clocks, then by Full what needs more than the room.
    fn put(&mut self, entry: Entry) -> Result<(), Refusal>
        ensures says { PutSays (dimension self.old) (need (dimension self.old) entry) entry (entries self.old) (room self.old) result (entries self.new) (room self.new) }
        ensures clocks { dimension self.new ≡ dimension self.old };

    fn clocks(&self) -> ClockCount
        ensures { result.count ≡ dimension self.now };

    // How many entries it has.
    fn count(&self) -> usize
        ensures { result ≡ length (entries self.now) };

    // Entry k, from 1; refused by Entry where there is none.
    fn read(&self, k: usize) -> Result<Entry, Refusal>
        ensures { Item (entries self.now) k result };
}
