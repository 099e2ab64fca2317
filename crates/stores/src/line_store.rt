ghost use Rattle.std.specs.Prelude.{◌≡◌, ◌≤◌, length, take};
ghost use Rattle.stores.specs.Held.{Kept};

use entries::clock_count::ClockCount;
use entries::entry::Entry;

mod keeping;
mod reading;

// A store that keeps each entry as its line in a lent slice of bytes, a unit a byte.
// The first `used` bytes are the lines of its `count` entries; those behind them hold what they held.
// The bytes are lent, and those used are counted beside them, since the libraries have no heap.
#[derive(Drop)]
pub struct LineStore<'a> {
    clocks: ClockCount,
    bytes: &'a mut [u8],
    used: usize,
    count: usize,
    ghost fits: { used ≤ length bytes.now },
    ghost kept: { ∥ Kept clocks.count count (take used bytes.now) ∥₁ },
}

impl<'a> LineStore<'a> {
    // An empty store. Bytes after the first 1,000,000,000 go unused.
    pub fn new(clocks: ClockCount, bytes: &'a mut [u8]) -> LineStore<'a>
        ensures clocks { result.clocks ≡ clocks }
        ensures bytes { result.bytes.now ≡ bytes.old }
        ensures used { result.used ≡ 0 }
        ensures count { result.count ≡ 0 }
        ensures same { result.bytes.ghost_name ≡ bytes.entry.ghost_name }
    {
        LineStore {
            clocks,
            bytes,
            used: 0,
            count: 0,
        }
    }
}
