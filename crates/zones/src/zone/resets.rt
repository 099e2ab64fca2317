ghost use Rattle.std.specs.Prelude.{◌≡◌, ℕ, ◌<◌, ◌≤◌, false, length, MatchOption, slice_index, slice_index_or};
ghost use Rattle.zones.specs.Codes.{code_cut, code_free, code_of};
ghost use Rattle.zones.specs.Resets.{marked, reset, Stuck, Zeroed};

use crate::codes::{Code, LEVEL, NONE};
use crate::new_bound::NewBound;
use crate::zone::Zone;

// Which of the clocks are named, clock 0 apart; none if one is above 8.
pub(super) fn named(clocks: &[usize]) -> Option<[bool; 9]>
    ensures { MatchOption result ((k : ℕ) × (k < length clocks.now) × (8 < slice_index clocks.now k)) (λ on. ((k : ℕ) → k < length clocks.now → slice_index clocks.now k < 9) × ((i : ℕ) → i < 9 → slice_index_or on i false ≡ reset clocks.now i)) }
{
    let mut on = [false; 9];
    for c in clocks {
        if *c > 8 {
            return None;
        }
        on[*c] = true;
    }
    on[0] = false;
    Some(on)
}

impl Zone {
    // The zone after clock k is cut to 0; none if nothing is left.
    fn at_zero(&self, k: usize) -> Option<Zone>
        requires { k < 9 }
        ensures { MatchOption result (code_of self.now.codes k < 33554433) (λ next. (33554433 ≤ code_of self.now.codes k) × ((p : ℕ) → p < 81 → code_of next.codes p ≡ code_cut self.now.codes k 0 33554433 p)) }
    {
        if self.codes[k] < LEVEL {
            return None;
        }
        let codes = self.ways(NewBound {
            row: k,
            column: 0,
            code: LEVEL,
        });
        Some(Zone { codes })
    }

    // The zone after each clock that is reset is cut to 0; none if nothing is left.
    pub(super) fn zeroed(&self, on: &[bool; 9]) -> Option<Zone>
        ensures { MatchOption result (Stuck (marked on.now) self.now.codes) (λ next. Zeroed (marked on.now) self.now.codes next.codes 9) }
    {
        let mut next = *self;
        for (k, reset) in on.iter().enumerate() {
            if *reset {
                next = next.at_zero(k)?;
            }
        }
        Some(next)
    }

    // The code at p after the clocks that were reset are let go.
    fn free_code(&self, on: &[bool; 9], p: usize) -> Code
        requires { p < 81 }
        ensures { result.0 ≡ code_free (marked on.now) self.now.codes p }
    {
        let a = p / 9;
        let b = p % 9;
        if a == b {
            return LEVEL;
        }
        if on[a] {
            return NONE;
        }
        if on[b] {
            self.codes[9 * a]
        } else {
            self.codes[9 * a + b]
        }
    }

    // The codes after the clocks that were reset are let go.
    pub(super) fn freed(&self, on: &[bool; 9]) -> [Code; 81]
        ensures { (p : ℕ) → p < 81 → code_of result p ≡ code_free (marked on.now) self.now.codes p }
    {
        let mut next = [NONE; 81];
        for (p, code) in next.iter_mut().enumerate() {
            *code = self.free_code(on, p);
        }
        next
    }
}
