ghost use Rattle.std.specs.Prelude.{◌≡◌};
ghost use Rattle.starts.specs.Starts.{InvariantTells, GoalTells, StepTells};

use crate::zones_back::{into_area, into_zone};
use bounds::refusal::Refusal;
use plans::plan::Plan;
use plans::rows::{Goal, Move, Outcome};
use zones::boxes::ClockBox;
use zones::zone::Zone;

// The invariant of a position of the plan.
fn invariant_at<P: Plan>(plan: &P, position: usize) -> Result<ClockBox, Refusal>
    ensures { InvariantTells (P.Plan.meaning plan.now) position result }
{
    Ok(plan.position(position)?.invariant)
}

// The states that reach the goal by a wait.
pub fn goal_zone<P: Plan>(plan: &P, goal: &Goal) -> Result<Option<Zone>, Refusal>
    ensures { GoalTells (P.Plan.meaning plan.now) goal.now result }
{
    let invariant = invariant_at(plan, goal.position)?;
    let time = plan.time();
    into_area(&time, &invariant, &goal.area)
}

// The states that reach the zone by a wait and the outcome of the move.
pub fn step_zone<P: Plan>(
    plan: &P,
    cause: &Move,
    outcome: &Outcome,
    zone: Zone,
) -> Result<Option<Zone>, Refusal>
    ensures { StepTells (P.Plan.meaning plan.now) cause.now outcome.now zone.codes result }
{
    let invariant = invariant_at(plan, cause.source)?;
    let time = plan.time();
    into_zone(zone, &time, &outcome.resets, &cause.guard, &invariant)
}
