ghost use Rattle.std.specs.Prelude.{◌≡◌, ℕ, Bool};
ghost use Rattle.bounds.specs.Bounds.{UpperBound, upto};
ghost use Rattle.bounds.specs.Sums.{bound_of};
ghost use Rattle.bounds.specs.Domains.{Lawful, cycle_allows, cycle_normal, hand_allows, hand_normal};
ghost use Rattle.bounds.specs.DomainLaws.{cycle_lawful, hand_lawful, plan_lawful};
ghost use Rattle.bounds.specs.Chosen.{plan_allows, plan_normal, NormalSays, NormalOfSays, AgreeSays};

use crate::bound::{Bound, equal, in_reach};
use crate::refusal::Refusal;

// A time domain: which scales a state may be written at, and the normal form of a bound, which is met by the same differences.
pub trait TimeDomain {
    // Which scales it allows.
    ghost allows: { Self → ℕ → Bool };

    // The normal form of a bound.
    ghost normal: { Self → UpperBound → UpperBound };

    // What every time domain keeps.
    ghost lawful: { (k : Self) → Lawful (allows k) (normal k) };

    // Whether the scale is allowed.
    fn allows_scale(&self, scale: u32) -> bool
        ensures { result ≡ allows self.now scale };

    // The normal form of a bound; a number beyond ±1,000,000,000 is refused by Number.
    fn normal_form(&self, bound: Bound) -> Result<Bound, Refusal>
        ensures { NormalSays (normal self.now) (upto bound.closed bound.number) result };
}

// Whole ticks: scale 1 alone, and `< c` is `<= c - 1`.
#[derive(Clone, Copy)]
pub struct CycleTime;

impl TimeDomain for CycleTime {
    ghost allows = { λ _. cycle_allows };

    ghost normal = { λ _. cycle_normal };

    ghost lawful = { λ _. cycle_lawful };

    fn allows_scale(&self, scale: u32) -> bool {
        scale == 1
    }

    fn normal_form(&self, bound: Bound) -> Result<Bound, Refusal> {
        if !in_reach(bound) {
            return Err(Refusal::Number);
        }
        if bound.closed {
            return Ok(bound);
        }
        Ok(Bound {
            number: bound.number - 1,
            closed: true,
        })
    }
}

// Any scale from 1 up, and every bound as it is.
#[derive(Clone, Copy)]
pub struct HandTime;

impl TimeDomain for HandTime {
    ghost allows = { λ _. hand_allows };

    ghost normal = { λ _. hand_normal };

    ghost lawful = { λ _. hand_lawful };

    fn allows_scale(&self, scale: u32) -> bool {
        scale >= 1
    }

    fn normal_form(&self, bound: Bound) -> Result<Bound, Refusal> {
        if !in_reach(bound) {
            return Err(Refusal::Number);
        }
        Ok(bound)
    }
}

// Either of the two, chosen as the program runs.
#[derive(Clone, Copy, PartialEq, Eq, Debug)]
pub enum PlanTime {
    Cycle,
    Hand,
}

impl TimeDomain for PlanTime {
    ghost allows = { plan_allows };

    ghost normal = { plan_normal };

    ghost lawful = { plan_lawful };

    fn allows_scale(&self, scale: u32) -> bool {
        match self {
            PlanTime::Cycle => CycleTime.allows_scale(scale),
            PlanTime::Hand => HandTime.allows_scale(scale),
        }
    }

    fn normal_form(&self, bound: Bound) -> Result<Bound, Refusal> {
        match self {
            PlanTime::Cycle => CycleTime.normal_form(bound),
            PlanTime::Hand => HandTime.normal_form(bound),
        }
    }
}

// The normal form of a bound, where there may be none.
pub fn normal_of<T: TimeDomain>(time: &T, bound: Option<Bound>) -> Result<Option<Bound>, Refusal>
    ensures { NormalOfSays (T.normal time.now) (bound_of bound) result }
{
    let Some(bound) = bound else {
        return Ok(None);
    };
    Ok(Some(time.normal_form(bound)?))
}

// Whether two bounds are met by the same differences at every scale that is allowed:
// they are exactly if their normal forms are the same.
pub fn agree<T: TimeDomain>(time: &T, a: Option<Bound>, b: Option<Bound>) -> Result<bool, Refusal>
    ensures { AgreeSays (T.allows time.now) (bound_of a) (bound_of b) result }
{
    let x = normal_of(time, a)?;
    let y = normal_of(time, b)?;
    Ok(equal(x, y))
}
