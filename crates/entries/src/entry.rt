ghost use Rattle.std.specs.Prelude.{◌≡◌, true};
ghost use Rattle.bounds.specs.Logic.{Iff};
ghost use Rattle.entries.specs.Entries.{IsEntry};

use crate::clock_count::ClockCount;
use crate::places::zone_bounds;
use zones::zone::Zone;

// What a store keeps: a zone of states at a position, and the round in which it was found.
#[derive(Clone, Copy)]
pub struct Entry {
    pub position: usize,
    pub round: u64,
    pub zone: Zone,
}

impl Entry {
    // Whether it is an entry for so many clocks: a position from 1 to 64,
    // and a zone that asks nothing of a clock above the count but to be 0 or more.
    pub fn is_for(self, clocks: ClockCount) -> bool
        ensures { Iff (result ≡ true) (IsEntry clocks.count self) }
    {
        (1..=64).contains(&self.position) && clocks.free_above(&zone_bounds(&self.zone))
    }
}
