ghost use Rattle.std.specs.Prelude.{◌≡◌, ℕ, ◌+◌, ◌*◌, ◌<◌, true, false};
ghost use Rattle.bounds.specs.Bounds.{upto};
ghost use Rattle.bounds.specs.Domains.{scales};
ghost use Rattle.zones.specs.Codes.{Near, code_plus, code_cut, code_of, decode};
ghost use Rattle.zones.specs.Cuts.{CutSays, Fit};

use crate::codes::{Code, LEVEL, NONE, every};
use crate::new_bound::NewBound;
use crate::zone::{Cut, Zone};
use bounds::bound::Bound;
use bounds::refusal::Refusal;
use bounds::time::TimeDomain;

// Whether every number is within the reach of a zone.
fn in_range(codes: &[Code; 81]) -> bool
    ensures { (result ≡ true → (p : ℕ) → p < 81 → Near 4000000 (code_of codes.now p)) × (result ≡ false → (p : ℕ) × (p < 81) × (Near 4000000 (code_of codes.now p) → ⊥)) }
{
    every(codes, |code| code.is_near())
}

impl Zone {
    // The first half of the ways through the new bound: from each clock to its row, and then the new bound.
    fn halves(&self, new: NewBound) -> [Code; 9]
        ensures { (a : ℕ) → a < 9 → code_of result a ≡ code_plus (code_of self.now.codes (9 * a + new.row)) new.code.0 }
    {
        let mut halves = [NONE; 9];
        for (a, half) in halves.iter_mut().enumerate() {
            *half = self.codes[9 * a + new.row].plus(new.code);
        }
        halves
    }

    // Every bound, tightened by the way through the new bound. The codes are read and written by index, as a zone's are.
    pub(super) fn ways(&self, new: NewBound) -> [Code; 81]
        ensures { (p : ℕ) → p < 81 → code_of result p ≡ code_cut self.now.codes new.row new.column new.code.0 p }
    {
        let halves = self.halves(new);
        let mut next = [NONE; 81];
        for p in 0..81 {
            let via = halves[p / 9].plus(self.codes[9 * new.column + p % 9]);
            next[p] = self.codes[p].tighter(via);
        }
        next
    }

    // The cut by a bound, given its normal form as a new bound. The time and the bound are named in the contract only.
    pub(super) fn tighten<T: TimeDomain>(
        &mut self,
        time: &T,
        bound: Bound,
        new: NewBound,
    ) -> Result<Cut, Refusal>
        requires fit { Fit (T.normal time.now) new.row new.column (upto bound.closed bound.number) self.old.codes }
        requires code { decode new.code.0 ≡ T.normal time.now (upto bound.closed bound.number) }
        ensures { CutSays (scales (T.allows time.now)) (T.normal time.now) new.row new.column (upto bound.closed bound.number) self.old.codes self.new.codes result }
    {
        if self.codes[9 * new.column + new.row].plus(new.code) < LEVEL {
            return Ok(Cut::Empty);
        }
        let codes = self.ways(new);
        if !in_range(&codes) {
            return Err(Refusal::Range);
        }
        self.codes = codes;
        Ok(Cut::Kept)
    }
}
