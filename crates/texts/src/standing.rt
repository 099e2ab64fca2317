ghost use Rattle.std.specs.Prelude.{◌≡◌, ◌<◌, ◌≤◌, IfSome};
ghost use Rattle.texts.specs.Fields.{named_clock};
ghost use Rattle.texts.specs.Words.{stands_at};

use crate::words::{Letter, Phase};

// Where a line stands: in which phase, and how many positions and clocks it may name.
#[derive(Clone, Copy)]
pub struct Standing {
    pub phase: Phase,
    pub positions: usize,
    pub clocks: usize,
    ghost few: { positions ≤ 64 },
    ghost counted: { clocks ≤ 8 },
}

impl Standing {
    // Whether a line of this kind may stand here.
    pub fn allows(self, letter: Letter) -> bool
        ensures { result ≡ stands_at letter self.phase self.positions }
    {
        match (letter, self.phase) {
            (Letter::Time, Phase::Begin) => true,
            (Letter::Position, Phase::Positions) => true,
            (Letter::Move | Letter::Goal, Phase::Positions) => 0 < self.positions,
            (Letter::Move | Letter::Outcome | Letter::Goal, Phase::Moves) => true,
            (Letter::Goal, Phase::Goals) => true,
            _ => false,
        }
    }

    // The place, from 0, of the clock with this number, if there is one.
    pub fn clock(self, number: u64) -> Option<usize>
        ensures value { result ≡ named_clock self.clocks number }
        ensures within { IfSome result (λ k. k < 8) }
    {
        if 1 <= number && number <= self.clocks as u64 {
            Some((number - 1) as usize)
        } else {
            None
        }
    }
}
