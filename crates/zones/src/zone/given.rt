ghost use Rattle.std.specs.Prelude.{◌≡◌, ℕ, ◌<◌, true, MatchResult};
ghost use Rattle.bounds.specs.declared.refusal.Refusal.TheVariants as refused;
ghost use Rattle.bounds.specs.Logic.{Iff};
ghost use Rattle.bounds.specs.Sums.{bound_of};
ghost use Rattle.zones.specs.Codes.{Near, decode, code_of};
ghost use Rattle.zones.specs.Cuts.{Far};
ghost use Rattle.zones.specs.Given.{Direct, Given, NoZone};

use crate::codes::{Code, LEVEL, NONE};
use crate::numbers::is_from_to;
use crate::zone::Zone;
use bounds::bound::Bound;
use bounds::refusal::Refusal;

// The code of a bound, which may be none; refused by Number where its number is one that no zone has.
fn given_code(bound: Option<Bound>) -> Result<Code, Refusal>
    ensures { MatchResult result (λ c. Near 4000000 c.0 × (decode c.0 ≡ bound_of bound)) (λ e. (e ≡ refused.Number) × Far (bound_of bound)) }
{
    if !is_from_to(bound, -4_000_000, 4_000_000) {
        return Err(Refusal::Number);
    }
    Ok(bound.map_or(NONE, Code::of))
}

// Whether the bound at one place is as every zone has it: no way round is tighter.
fn direct(codes: &[Code; 81], p: usize) -> bool
    requires { (((q : ℕ) → q < 81 → Near 4000000 (code_of codes.now q))) × (p < 81) }
    ensures { Iff (result ≡ true) (Direct codes.now p) }
{
    if p / 9 == p % 9 && codes[p] != LEVEL {
        return false;
    }
    if p < 9 && codes[p] > LEVEL {
        return false;
    }
    (0..9).all(|k| codes[p] <= codes[9 * (p / 9) + k].plus(codes[9 * k + p % 9]))
}

// Whether every bound is as every zone has it.
fn all_direct(codes: &[Code; 81]) -> bool
    requires { (q : ℕ) → q < 81 → Near 4000000 (code_of codes.now q) }
    ensures { Iff (result ≡ true) ((p : ℕ) → p < 81 → Direct codes.now p) }
{
    (0..81).all(|p| direct(codes, p))
}

impl Zone {
    // The zone with these bounds, that at (i, j) standing at 9 i + j; refused by Number where no zone has them all.
    pub fn of_bounds(bounds: &[Option<Bound>; 81]) -> Result<Zone, Refusal>
        ensures { MatchResult result (λ z. Given bounds.now z.codes) (λ e. (e ≡ refused.Number) × NoZone bounds.now) }
    {
        // By a loop: `try_map` was proved too, but took 1.6 times as long.
        let mut codes = [NONE; 81];
        for (p, code) in codes.iter_mut().enumerate() {
            *code = given_code(bounds[p])?;
        }
        if !all_direct(&codes) {
            return Err(Refusal::Number);
        }
        Ok(Zone { codes })
    }
}
