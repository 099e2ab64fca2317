ghost use Rattle.std.specs.Prelude.{◌≡◌, ◌≤◌, true, pos, ◌-ℤ◌};
ghost use Rattle.bounds.specs.Bounds.{Meets};
ghost use Rattle.bounds.specs.Logic.{Iff};
ghost use Rattle.zones.specs.Codes.{Near, decode, at};
ghost use Rattle.zones.specs.Matrices.{Holds};
ghost use Rattle.zones.specs.States.{reading};

use crate::codes::{BIAS, Code, NONE};
use crate::state::State;
use crate::zone::Zone;

// Whether a - b, read at the scale, meets the bound of the code.
fn meets(code: Code, scale: u32, a: u32, b: u32) -> bool
    requires { (Near 4000000 code.0) × (scale ≤ 1000) }
    ensures { Iff (result ≡ true) (Meets scale (pos a -ℤ pos b) (decode code.0)) }
{
    if code == NONE {
        return true;
    }
    let left = u64::from(a) + u64::from(BIAS) * u64::from(scale);
    let right = u64::from(b) + u64::from(code.0 / 2) * u64::from(scale);
    if code.0 % 2 == 1 {
        left <= right
    } else {
        left < right
    }
}

impl Zone {
    // Whether the readings at the scale meet every bound.
    pub(super) fn met(&self, state: &State) -> bool
        requires { state.now.scale ≤ 1000 }
        ensures { Iff (result ≡ true) (Holds (at self.now.codes) state.now.scale (reading state.now.readings.now)) }
    {
        // By a loop: `all` over 0..81 was proved too, but took a seventh longer.
        for (p, code) in self.codes.iter().enumerate() {
            if !meets(
                *code,
                state.scale,
                state.reading(p / 9),
                state.reading(p % 9),
            ) {
                return false;
            }
        }
        true
    }
}
