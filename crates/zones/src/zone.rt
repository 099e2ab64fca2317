ghost use Rattle.std.specs.Prelude.{◌≡◌, ℕ, ◌<◌, ◌≤◌, true, MatchResult};
ghost use Rattle.bounds.specs.declared.refusal.Refusal.TheVariants as refused;
ghost use Rattle.bounds.specs.Domains.{scales, hand_allows};
ghost use Rattle.bounds.specs.Logic.{Iff};
ghost use Rattle.bounds.specs.Sums.{bound_of};
ghost use Rattle.zones.specs.Boxes.{BoxSays};
ghost use Rattle.zones.specs.Calls.{BackSays, WithinSays, HoldsSays, UndoSays, HasState, AllSays, BoundSays};
ghost use Rattle.zones.specs.Codes.{Sound, code_all, code_of};
ghost use Rattle.zones.specs.Cuts.{CutSays, OfDomain};

use crate::boxes::ClockBox;
use crate::codes::{Code, LEVEL, NONE, every};
use crate::new_bound::NewBound;
use crate::numbers::is_from_to;
use crate::state::State;
use bounds::bound::Bound;
use bounds::refusal::Refusal;
use bounds::time::TimeDomain;
use resets::named;

mod back;
mod given;
mod held;
mod resets;
mod ways;

// A zone: for the clocks 0 to 8, where clock 0 reads 0, a bound on each reading minus each other.
// The code of the bound at (i, j), on reading i minus reading j, stands at 9 i + j.
#[derive(Clone, Copy)]
pub struct Zone {
    codes: [Code; 81],
    ghost ok: { ∥ Sound codes ∥₁ },
}

// What is left of a zone: some states, or none.
#[derive(Clone, Copy, PartialEq, Eq, Debug)]
pub enum Cut {
    Kept,
    Empty,
}

impl Zone {
    // Every state.
    pub fn all() -> Zone
        ensures { AllSays result.codes }
    {
        let mut codes = [NONE; 81];
        for (p, code) in codes.iter_mut().enumerate() {
            *code = open_code(p);
        }
        Zone { codes }
    }

    // The bound at (i, j).
    pub fn bound(&self, i: usize, j: usize) -> Result<Option<Bound>, Refusal>
        ensures { BoundSays i j self.now.codes result }
    {
        check_clocks(i, j)?;
        Ok(self.codes[9 * i + j].bound())
    }

    // Keeps the states that also meet the bound at (i, j).
    pub fn cut<T: TimeDomain>(
        &mut self,
        time: &T,
        i: usize,
        j: usize,
        bound: Option<Bound>,
    ) -> Result<Cut, Refusal>
        ensures { CutSays (scales (T.allows time.now)) (T.normal time.now) i j (bound_of bound) self.old.codes self.new.codes result }
    {
        check_clocks(i, j)?;
        if !is_from_to(bound, -1_000_000, 1_000_000) {
            return Err(Refusal::Number);
        }
        self.check(time)?;
        let Some(bound) = bound else {
            return Ok(Cut::Kept);
        };
        let normal = time.normal_form(bound)?;
        let new = NewBound {
            row: i,
            column: j,
            code: Code::of(normal),
        };
        self.tighten(time, bound, new)
    }

    // Keeps the states in the box: clock by clock, the lower bound first, until nothing is left or a number is out of range.
    pub fn cut_box<T: TimeDomain>(&mut self, time: &T, clock_box: &ClockBox) -> Result<Cut, Refusal>
        ensures { BoxSays (scales (T.allows time.now)) (T.normal time.now) clock_box.now.sides self.old.codes self.new.codes result }
    {
        if !clock_box.is_plain() {
            return Err(Refusal::Number);
        }
        self.check(time)?;
        let mut next = *self;
        for (k, side) in clock_box.sides.iter().enumerate() {
            let Cut::Kept = next.cut(time, 0, k + 1, side.turned_lower())? else {
                return Ok(Cut::Empty);
            };
            let Cut::Kept = next.cut(time, k + 1, 0, side.upper)? else {
                return Ok(Cut::Empty);
            };
        }
        *self = next;
        Ok(Cut::Kept)
    }

    // Goes back in time: to the states from which some wait of 0 or more leads into the zone.
    pub fn back<T: TimeDomain>(&mut self, time: &T) -> Result<(), Refusal>
        ensures { BackSays (scales (T.allows time.now)) (T.normal time.now) self.old.codes self.new.codes result }
    {
        self.check(time)?;
        *self = self.backed();
        Ok(())
    }

    // Goes back over a reset: to the states that lie in the zone once the clocks are set to 0.
    pub fn undo<T: TimeDomain>(&mut self, time: &T, clocks: &[usize]) -> Result<Cut, Refusal>
        ensures { UndoSays (scales (T.allows time.now)) (T.normal time.now) clocks.now self.old.codes self.new.codes result }
    {
        let on = named(clocks).ok_or(Refusal::Name)?;
        self.check(time)?;
        let Some(zero) = self.zeroed(&on) else {
            return Ok(Cut::Empty);
        };
        self.codes = zero.freed(&on);
        Ok(Cut::Kept)
    }

    // Whether the zone holds the state.
    pub fn holds<T: TimeDomain>(&self, time: &T, state: &State) -> Result<bool, Refusal>
        ensures { HoldsSays (T.allows time.now) (T.normal time.now) state.now.scale state.now.readings.now self.now.codes result }
    {
        self.check(time)?;
        state.check(time)?;
        Ok(self.met(state))
    }

    // Whether the zone is of the time domain: every bound of it is in normal form.
    // One that is holds a state at a scale that the domain allows, and every zone holds one at some scale.
    pub fn is_of<T: TimeDomain>(&self, time: &T) -> bool
        ensures is { Iff (result ≡ true) (OfDomain (T.normal time.now) self.now.codes) }
        ensures state { result ≡ true → HasState (scales (T.allows time.now)) self.now.codes }
        ensures some { HasState (scales hand_allows) self.now.codes }
    {
        every(&self.codes, |code| code.is_normal(time))
    }

    // Refuses, by Number, a zone that is not of the time domain.
    fn check<T: TimeDomain>(&self, time: &T) -> Result<(), Refusal>
        ensures { MatchResult result (λ _. OfDomain (T.normal time.now) self.now.codes) (λ e. (e ≡ refused.Number) × (OfDomain (T.normal time.now) self.now.codes → ⊥)) }
    {
        if self.is_of(time) {
            Ok(())
        } else {
            Err(Refusal::Number)
        }
    }

    // Whether every state of this zone lies in the other.
    pub fn within<T: TimeDomain>(&self, other: &Zone, time: &T) -> Result<bool, Refusal>
        ensures { WithinSays (scales (T.allows time.now)) (T.normal time.now) self.now.codes other.now.codes result }
    {
        self.check(time)?;
        other.check(time)?;
        Ok(no_looser(&self.codes, &other.codes))
    }
}

// The code at p of the zone of every state.
fn open_code(p: usize) -> Code
    ensures { result.0 ≡ code_all p }
{
    if p < 9 || p % 10 == 0 { LEVEL } else { NONE }
}

// Refuses, by Name, a clock above 8.
fn check_clocks(i: usize, j: usize) -> Result<(), Refusal>
    ensures { MatchResult result (λ _. (i < 9) × (j < 9)) (λ e. (e ≡ refused.Name) × ((i < 9 × (j < 9)) → ⊥)) }
{
    if i < 9 && j < 9 {
        Ok(())
    } else {
        Err(Refusal::Name)
    }
}

// Whether each bound is as tight as the other's, or tighter.
fn no_looser(a: &[Code; 81], b: &[Code; 81]) -> bool
    ensures { Iff (result ≡ true) ((p : ℕ) → p < 81 → code_of a.now p ≤ code_of b.now p) }
{
    a.iter().zip(b).all(|(x, y)| x <= y)
}
