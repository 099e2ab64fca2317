ghost use Rattle.std.specs.Prelude.{◌≡◌, ℕ, ◌<◌};
ghost use Rattle.zones.specs.Codes.{code_front, code_back, code_of};

use crate::codes::{Code, LEVEL};
use crate::zone::Zone;

impl Zone {
    // The tightest of `<= 0` and the bounds at (1, j) to (8, j), which are read by index, as those of a zone are.
    fn front(&self, j: usize) -> Code
        requires { j < 9 }
        ensures { result.0 ≡ code_front self.now.codes 8 j }
    {
        let mut best = LEVEL;
        for k in 1..9 {
            best = best.tighter(self.codes[9 * k + j]);
        }
        best
    }

    // The zone taken back: its first row is new.
    pub(super) fn backed(&self) -> Zone
        ensures { (p : ℕ) → p < 81 → code_of result.codes p ≡ code_back self.now.codes p }
    {
        // Over the first row alone: `array::from_fn` over all 81 codes took seven times as long.
        let mut codes = self.codes;
        for (j, code) in codes[..9].iter_mut().enumerate() {
            *code = self.front(j);
        }
        Zone { codes }
    }
}
