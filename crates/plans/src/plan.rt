ghost use Rattle.std.specs.Prelude.{◌≡◌, length};
ghost use Rattle.plans.specs.Items.{Item};
ghost use Rattle.plans.specs.Journeys.{OneScale};
ghost use Rattle.plans.specs.Meaning.{PlanMeaning, WellFormed};

use super::rows::{Goal, Move, Outcome, Position};
use bounds::refusal::Refusal;
use bounds::time::TimeDomain;

// A plan: a time domain, a clock count and four lists, asked for by item, from 1.
pub trait Plan {
    // Its time domain.
    type Time: TimeDomain + Copy;

    // What the plan means: all that its calls answer from.
    ghost meaning: { Self → PlanMeaning };

    // Every name exists, every number is in range, and each move's chances add up to 1000.
    ghost sound: { (p : Self) → WellFormed (meaning p) };

    fn time(&self) -> Self::Time
        ensures allows { Self.Time.TimeDomain.allows result ≡ (meaning self.now).allows }
        ensures normal { Self.Time.TimeDomain.normal result ≡ (meaning self.now).normal };

    fn clocks(&self) -> usize
        ensures { result ≡ (meaning self.now).clocks };

    fn positions(&self) -> usize
        ensures { result ≡ length (meaning self.now).positions };

    fn position(&self, k: usize) -> Result<Position, Refusal>
        ensures { Item (meaning self.now).positions k result };

    fn moves(&self) -> usize
        ensures { result ≡ length (meaning self.now).moves };

    fn move_at(&self, k: usize) -> Result<Move, Refusal>
        ensures { Item (meaning self.now).moves k result };

    fn outcomes(&self) -> usize
        ensures { result ≡ length (meaning self.now).outcomes };

    fn outcome(&self, k: usize) -> Result<Outcome, Refusal>
        ensures { Item (meaning self.now).outcomes k result };

    fn goals(&self) -> usize
        ensures { result ≡ length (meaning self.now).goals };

    fn goal(&self, k: usize) -> Result<Goal, Refusal>
        ensures { Item (meaning self.now).goals k result };
}

// Whether a state of the plan may be written at the scale. That the scale may change along a route adds no route.
pub fn allows_scale<P: Plan>(plan: &P, scale: u32) -> bool
    ensures is { result ≡ (P.Plan.meaning plan.now).allows scale }
    ensures routes { OneScale (P.Plan.meaning plan.now) }
{
    plan.time().allows_scale(scale)
}
