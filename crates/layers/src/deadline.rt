ghost use Rattle.std.specs.Prelude.{◌≡◌, ◌≤◌, if◌then◌else◌, MatchResult, nat_lt};
ghost use Rattle.layers.specs.Deadlines.{timed, under, DeadlineMeans, DeadlineRefused};
ghost use Rattle.layers.specs.LayersSound.{under_sound};
ghost use Rattle.layers.specs.Theorems.{DeadlineRuns, DeadlineRoutes, DeadlineStates, StackedRoutes, MixedRoutes};

use super::refused::NotLaid;
use super::restriction::Restriction;
use bounds::bound::Bound;
use bounds::refusal::Refusal;
use plans::plan::Plan;
use plans::rows::{Goal, Move, Outcome, Position};
use zones::boxes::{ClockBox, Side};

// A deadline over any plan: one clock more, that nothing resets, and at most `ticks` ticks on it in every goal.
#[derive(Drop)]
pub struct Deadline<P: Plan> {
    below: P,
    ticks: u32,
    ghost small: { ticks ≤ 1000000 },
}

impl<P: Plan> Deadline<P> {
    // Refuses more than 1,000,000 ticks by Number, and then a plan that has eight clocks by Clocks.
    pub fn new(below: P, ticks: u32) -> Result<Deadline<P>, NotLaid<P>>
        ensures { MatchResult result (λ d. (d.below ≡ below) × (d.ticks ≡ ticks) × DeadlineMeans ticks (P.Plan.meaning below)) (λ e. (e.below ≡ below) × DeadlineRefused ticks (P.Plan.meaning below) e.refusal) }
    {
        if ticks > 1_000_000 {
            return Err(NotLaid {
                refusal: Refusal::Number,
                below,
            });
        }
        if below.clocks() >= 8 {
            return Err(NotLaid {
                refusal: Refusal::Clocks,
                below,
            });
        }
        Ok(Deadline { below, ticks })
    }

    // How many ticks a route may last.
    pub fn ticks(&self) -> u32
        ensures is { result ≡ self.now.ticks }
        ensures runs { DeadlineRuns result (P.Plan.meaning self.now.below) }
        ensures routes { DeadlineRoutes result (P.Plan.meaning self.now.below) }
        ensures states { DeadlineStates result (P.Plan.meaning self.now.below) }
    {
        self.ticks
    }
}

// The ticks of a deadline over a deadline, and of the one below.
pub fn ticks_of_both<P: Plan>(d: &Deadline<Deadline<P>>) -> (u32, u32)
    ensures is { (result.0 ≡ d.now.ticks) × (result.1 ≡ d.now.below.ticks) }
    ensures routes { StackedRoutes result.0 result.1 (P.Plan.meaning d.now.below.below) }
{
    (d.ticks, d.below.ticks)
}

// The ticks of a deadline over a restriction.
pub fn ticks_in_boxes<P: Plan>(d: &Deadline<Restriction<P>>) -> u32
    ensures is { result ≡ d.now.ticks }
    ensures routes { MixedRoutes result d.now.below.boxes.now (P.Plan.meaning d.now.below.below) }
{
    d.ticks
}

// The calls that are the plan's below are handed on one by one: no trait can do so for every layer, since Plan is another crate's.
impl<P: Plan> Plan for Deadline<P> {
    type Time = P::Time;

    ghost meaning = { λ d. under d.ticks (P.Plan.meaning d.below) };

    ghost sound = { λ d. under_sound d.ticks (P.Plan.meaning d.below) d.small (P.Plan.sound d.below) };

    fn time(&self) -> P::Time {
        self.below.time()
    }

    fn clocks(&self) -> usize {
        let n = self.below.clocks();
        if n < 8 { n + 1 } else { n }
    }

    fn positions(&self) -> usize {
        self.below.positions()
    }

    fn position(&self, k: usize) -> Result<Position, Refusal> {
        self.below.position(k)
    }

    fn moves(&self) -> usize {
        self.below.moves()
    }

    fn move_at(&self, k: usize) -> Result<Move, Refusal> {
        self.below.move_at(k)
    }

    fn outcomes(&self) -> usize {
        self.below.outcomes()
    }

    fn outcome(&self, k: usize) -> Result<Outcome, Refusal> {
        self.below.outcome(k)
    }

    fn goals(&self) -> usize {
        self.below.goals()
    }

    fn goal(&self, k: usize) -> Result<Goal, Refusal> {
        let g = self.below.goal(k)?;
        Ok(timed_goal(g, self.ticks, self.below.clocks()))
    }
}

// The goal with the deadline on the clock after the first `clocks`. The goal is built and not written into, so that a caller who reads its position alone has no box copied.
fn timed_goal(g: Goal, ticks: u32, clocks: usize) -> Goal
    requires { ticks ≤ 1000000 }
    ensures { result ≡ (if nat_lt clocks 8 then timed ticks clocks g else g) }
{
    if clocks >= 8 {
        return g;
    }
    let mut sides = g.area.sides;
    sides[clocks] = Side {
        upper: Some(Bound::at_most(ticks as i32)),
        ..Side::default()
    };
    Goal {
        position: g.position,
        area: ClockBox { sides },
    }
}
