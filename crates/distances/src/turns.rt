ghost use Rattle.std.specs.Prelude.{◌≡◌, ◌-◌, ◌^◌, ◌<◌, Ok};
ghost use Rattle.distances.specs.Turns.{Over, OfferSays, FromGoal, FromOutcome, AcrossSays, FromLast, RoundSays};

use crate::cover::is_covered;
use bounds::refusal::Refusal;
use entries::entry::Entry;
use plans::plan::Plan;
use plans::rows::{Goal, Outcome};
use starts::starts::{goal_zone, step_zone};
use stores::store::Store;
use zones::zone::Zone;

// A round of a plan, by its number. The store goes beside it: within, each call would also have to say that plan and number stay.
#[derive(Drop)]
struct Round<'a, P: Plan> {
    plan: &'a P,
    number: u64,
    ghost fits: { number < 2 ^ 64 },
}

impl<P: Plan> Round<'_, P> {
    // What is left of one start is dropped, where no state is or a held zone has it within it, or put.
    fn offer<S: Store>(
        &self,
        store: &mut S,
        position: usize,
        left: Option<Zone>,
    ) -> Result<(), Refusal>
        ensures { Over S.Store (OfferSays (P.Plan.meaning self.now.plan.now) self.now.number position (Ok left)) store.old result store.new }
    {
        let Some(zone) = left else {
            return Ok(());
        };
        if is_covered(store, &self.plan.time(), position, &zone) {
            return Ok(());
        }
        store.put(Entry {
            position,
            round: self.number,
            zone,
        })
    }

    // What the goal starts.
    fn from_goal<S: Store>(&self, store: &mut S, goal: &Goal) -> Result<(), Refusal>
        requires { self.now.number ≡ 0 }
        ensures { Over S.Store (FromGoal (P.Plan.meaning self.now.plan.now) goal.now) store.old result store.new }
    {
        let left = goal_zone(self.plan, goal)?;
        self.offer(store, goal.position, left)
    }

    // Round 0: each goal in order.
    fn first<S: Store>(&self, store: &mut S) -> Result<(), Refusal>
        requires { self.now.number ≡ 0 }
        ensures { Over S.Store (λ n need. RoundSays (P.Plan.meaning self.now.plan.now) n need 0) store.old result store.new }
    {
        for k in 0..self.plan.goals() {
            let goal = self.plan.goal(k + 1)?;
            self.from_goal(store, &goal)?;
        }
        Ok(())
    }

    // What the entry starts by the outcome.
    fn cross<S: Store>(&self, store: &mut S, held: &Entry, outcome: &Outcome) -> Result<(), Refusal>
        ensures { Over S.Store (FromOutcome (P.Plan.meaning self.now.plan.now) self.now.number held.now outcome.now) store.old result store.new }
    {
        if outcome.chance < 1 || outcome.target != held.position {
            return Ok(());
        }
        let cause = self.plan.move_at(outcome.cause)?;
        let left = step_zone(self.plan, &cause, outcome, held.zone)?;
        self.offer(store, cause.source, left)
    }

    // What the entry starts by every outcome, in order.
    fn from_entry<S: Store>(&self, store: &mut S, held: &Entry) -> Result<(), Refusal>
        ensures { Over S.Store (AcrossSays (P.Plan.meaning self.now.plan.now) self.now.number held.now) store.old result store.new }
    {
        for k in 0..self.plan.outcomes() {
            let outcome = self.plan.outcome(k + 1)?;
            self.cross(store, held, &outcome)?;
        }
        Ok(())
    }

    // What the entry starts, if it is of the round before.
    fn from_last<S: Store>(&self, store: &mut S, held: &Entry) -> Result<(), Refusal>
        requires { 0 < self.now.number }
        ensures { Over S.Store (FromLast (P.Plan.meaning self.now.plan.now) self.now.number (self.now.number - 1) held.now) store.old result store.new }
    {
        if held.round != self.number - 1 {
            return Ok(());
        }
        self.from_entry(store, held)
    }

    // A later round: each entry of the one before, in order.
    fn next<S: Store>(&self, store: &mut S) -> Result<(), Refusal>
        requires { 0 < self.now.number }
        ensures { Over S.Store (λ n need. RoundSays (P.Plan.meaning self.now.plan.now) n need self.now.number) store.old result store.new }
    {
        for k in 0..store.count() {
            let entry = store.read(k + 1)?;
            self.from_last(store, &entry)?;
        }
        Ok(())
    }
}

// A round of the plan over the store.
pub fn do_round<P: Plan, S: Store>(plan: &P, store: &mut S, round: u64) -> Result<(), Refusal>
    ensures says { RoundSays (P.Plan.meaning plan.now) (S.Store.dimension store.old) (S.Store.need (S.Store.dimension store.old)) round (S.Store.entries store.old) (S.Store.room store.old) result (S.Store.entries store.new) (S.Store.room store.new) }
    ensures clocks { S.Store.dimension store.new ≡ S.Store.dimension store.old }
{
    let now = Round {
        plan,
        number: round,
    };
    if round == 0 {
        return now.first(store);
    }
    now.next(store)
}
