ghost use Rattle.std.specs.Prelude.{◌≡◌, true};
ghost use Rattle.bounds.specs.Logic.{Iff};
ghost use Rattle.bounds.specs.Sums.{bound_of};
ghost use Rattle.zones.specs.Boxes.{Ordinary, Plain, turned};

use crate::numbers::is_from_to;
use bounds::bound::Bound;

// What a box asks of one clock: at least the lower bound's number (above it, if the bound is not closed),
// and at most the upper bound's (below it). By default it asks nothing.
#[derive(Clone, Copy, PartialEq, Eq, Default, Debug)]
pub struct Side {
    pub lower: Option<Bound>,
    pub upper: Option<Bound>,
}

// What is asked of the clocks 1 to 8, in this order. By default that is nothing.
#[derive(Clone, Copy, PartialEq, Eq, Default, Debug)]
pub struct ClockBox {
    pub sides: [Side; 8],
}

impl Side {
    // Whether every number of the side is from 0 to 1,000,000.
    pub fn is_ordinary(&self) -> bool
        ensures { Iff (result ≡ true) (Ordinary (bound_of self.now.lower) × Ordinary (bound_of self.now.upper)) }
    {
        is_from_to(self.lower, 0, 1_000_000) && is_from_to(self.upper, 0, 1_000_000)
    }

    // The lower bound, turned round to one on 0 minus the clock.
    pub(crate) fn turned_lower(&self) -> Option<Bound>
        requires { Ordinary (bound_of self.now.lower) }
        ensures { bound_of result ≡ turned (bound_of self.now.lower) }
    {
        let b = self.lower?;
        Some(Bound {
            number: -b.number,
            closed: b.closed,
        })
    }
}

impl ClockBox {
    // Whether every number of the box is from 0 to 1,000,000.
    pub fn is_plain(&self) -> bool
        ensures { Iff (result ≡ true) (Plain self.now.sides) }
    {
        self.sides.iter().all(|side| side.is_ordinary())
    }
}
