ghost use Rattle.std.specs.Prelude.{◌≡◌, ◌≤◌};
ghost use Rattle.layers.specs.Narrowing.{both, narrow_box};

use bounds::tighter::{highest, lowest};
use std::array;
use zones::boxes::{ClockBox, Side};

// The box `c` narrowed by `b` on its first clocks.
pub(crate) fn narrow(b: ClockBox, clocks: usize, c: ClockBox) -> ClockBox
    requires { clocks ≤ 8 }
    ensures { result ≡ narrow_box clocks b c }
{
    ClockBox {
        sides: array::from_fn(|i| if i < clocks {
            both(b.sides[i], c.sides[i])
        } else {
            c.sides[i]
        }),
    }
}

// What asks both of a clock.
fn both(a: Side, b: Side) -> Side
    ensures { result ≡ both a b }
{
    Side {
        lower: highest(a.lower, b.lower),
        upper: lowest(a.upper, b.upper),
    }
}
