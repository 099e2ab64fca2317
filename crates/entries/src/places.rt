ghost use Rattle.std.specs.Prelude.{◌≡◌, ℕ, ◌/◌, ◌%◌, ◌<◌, true, false, None, ◌≢◌, slice_index_or};
ghost use Rattle.bounds.specs.Sums.{bound_of};
ghost use Rattle.zones.specs.Codes.{at};
ghost use Rattle.entries.specs.Entries.{whole, bounds_at};

use crate::clock_count::ClockCount;
use crate::place::Place;
use bounds::bound::{Bound, equal};
use std::array::from_fn;
use zones::zone::Zone;

// The bounds of a zone, each at its place.
pub fn zone_bounds(zone: &Zone) -> [Option<Bound>; 81]
    ensures { (p : ℕ) → p < 81 → bound_of (slice_index_or result p None) ≡ at zone.now.codes (p / 9) (p % 9) }
{
    from_fn(|p| bound_at(zone, Place::new(p)))
}

// The bound at a place. It is never refused, since the place is within.
pub fn bound_at(zone: &Zone, place: Place) -> Option<Bound>
    ensures { bound_of result ≡ at zone.now.codes (place.number / 9) (place.number % 9) }
{
    zone.bound(place.row(), place.column()).unwrap_or(None)
}

impl ClockCount {
    // The bound at a place, as a zone has it that asks nothing of a clock above the count: it follows from the bounds among the others.
    pub(crate) fn whole_bound(self, bounds: &[Option<Bound>; 81], place: Place) -> Option<Bound>
        ensures { bound_of result ≡ whole self.count (bounds_at bounds.now) (place.number / 9) (place.number % 9) }
    {
        let i = place.row();
        let j = place.column();
        if i == j {
            return Some(Bound::at_most(0));
        }
        if i > self.get() {
            return None;
        }
        if j <= self.get() {
            return bounds[9 * i + j];
        }
        if i == 0 {
            return Some(Bound::at_most(0));
        }
        bounds[9 * i]
    }

    // All of them.
    pub(crate) fn whole_bounds(self, bounds: &[Option<Bound>; 81]) -> [Option<Bound>; 81]
        ensures { (p : ℕ) → p < 81 → bound_of (slice_index_or result p None) ≡ whole self.count (bounds_at bounds.now) (p / 9) (p % 9) }
    {
        from_fn(|p| self.whole_bound(bounds, Place::new(p)))
    }

    // Whether every bound is so, which leaves the clocks above the count free. Place by place, since where one is not so the place is told.
    pub(crate) fn free_above(self, bounds: &[Option<Bound>; 81]) -> bool
        ensures { (result ≡ true → (p : ℕ) → p < 81 → bound_of (slice_index_or bounds.now p None) ≡ whole self.count (bounds_at bounds.now) (p / 9) (p % 9)) × (result ≡ false → (p : ℕ) × (p < 81) × (bound_of (slice_index_or bounds.now p None) ≢ whole self.count (bounds_at bounds.now) (p / 9) (p % 9))) }
    {
        (0..81).all(|p| equal(bounds[p], self.whole_bound(bounds, Place::new(p))))
    }
}
