ghost use Rattle.std.specs.Prelude.{◌≡◌};
ghost use Rattle.rounds.specs.declared.replies.Phase.TheVariants.{Open};
ghost use Rattle.distances.specs.Searching.{AdvanceSays, WidenSays, WidenMeans, NewSays, AskableTells, TellSays, AskSays, AskMeans};

use crate::find::find;
use crate::turns::do_round;
use bounds::refusal::Refusal;
use plans::plan::Plan;
use rounds::replies::{Answer, Phase};
use stores::store::Store;
use zones::state::State;

mod reading;

// The phase at set-up.
fn first_phase<P: Plan, S: Store>(plan: &P, store: &S) -> Phase
    ensures { NewSays (P.Plan.meaning plan.now) (S.Store.dimension store.now) (S.Store.entries store.now) (S.Store.room store.now) result 0 }
{
    if store.clocks().get() == plan.clocks() && store.count() == 0 {
        Phase::Open
    } else {
        Phase::Unfit
    }
}

// A Search for distances: one plan, one store, its phase and the rounds that are finished.
#[derive(Drop)]
pub struct Search<P: Plan, S: Store> {
    plan: P,
    store: S,
    phase: Phase,
    rounds: u64,
}

// Whether the position exists, the state reads each clock of the plan, and its scale and readings are in range.
fn is_askable<P: Plan>(plan: &P, position: usize, state: &State) -> bool
    ensures { AskableTells (P.Plan.meaning plan.now) state.now.scale position state.now.readings.now result }
{
    1 <= position
        && position <= plan.positions()
        && state.readings.len() == plan.clocks()
        && state.check(&plan.time()).is_ok()
}

impl<P: Plan, S: Store> Search<P, S> {
    // A Search over the plan, and over a store for its clocks that is empty; else it is unfit.
    pub fn new(plan: P, store: S) -> Search<P, S>
        ensures says { NewSays (P.Plan.meaning plan) (S.Store.dimension store) (S.Store.entries store) (S.Store.room store) result.phase result.rounds }
        ensures plan { result.plan ≡ plan }
        ensures store { result.store ≡ store }
    {
        let phase = first_phase(&plan, &store);
        Search {
            plan,
            store,
            phase,
            rounds: 0,
        }
    }

    // Does the next round, of an open Search.
    fn advance(&mut self) -> Result<u64, Refusal>
        requires { self.old.phase ≡ Open }
        ensures says { AdvanceSays (P.Plan.meaning self.old.plan) (S.Store.dimension self.old.store) (S.Store.need (S.Store.dimension self.old.store)) (S.Store.entries self.old.store) (S.Store.room self.old.store) self.old.rounds result self.new.phase (S.Store.entries self.new.store) (S.Store.room self.new.store) self.new.rounds }
        ensures plan { self.new.plan ≡ self.old.plan }
        ensures clocks { S.Store.dimension self.new.store ≡ S.Store.dimension self.old.store }
    {
        let before = self.store.count();
        // A round that is refused leaves it so.
        self.phase = Phase::Stopped;
        do_round(&self.plan, &mut self.store, self.rounds)?;
        self.rounds = self.rounds.saturating_add(1);
        if self.store.count() == before {
            self.phase = Phase::Closed;
        } else {
            self.phase = Phase::Open;
        }
        Ok(self.rounds)
    }

    // Widens by a round, and answers how many are finished; refused by Phase once closed or stopped, and if unfit.
    pub fn widen(&mut self) -> Result<u64, Refusal>
        ensures says { WidenSays (P.Plan.meaning self.old.plan) (S.Store.dimension self.old.store) (S.Store.need (S.Store.dimension self.old.store)) self.old.phase (S.Store.entries self.old.store) (S.Store.room self.old.store) self.old.rounds result self.new.phase (S.Store.entries self.new.store) (S.Store.room self.new.store) self.new.rounds }
        ensures means { WidenMeans (P.Plan.meaning self.old.plan) (S.Store.dimension self.old.store) (S.Store.need (S.Store.dimension self.old.store)) self.old.phase (S.Store.entries self.old.store) self.old.rounds self.new.phase (S.Store.entries self.new.store) self.new.rounds }
        ensures plan { self.new.plan ≡ self.old.plan }
        ensures clocks { S.Store.dimension self.new.store ≡ S.Store.dimension self.old.store }
    {
        match self.phase {
            Phase::Open => self.advance(),
            Phase::Closed | Phase::Stopped | Phase::Unfit => Err(Refusal::Phase),
        }
    }

    // The answer for a state, of a Search that is not unfit.
    fn tell(&self, position: usize, state: &State) -> Result<Answer, Refusal>
        ensures { TellSays (P.Plan.meaning self.now.plan) (S.Store.dimension self.now.store) self.now.phase (S.Store.entries self.now.store) (S.Store.room self.now.store) self.now.rounds state.now.scale position state.now.readings.now result }
    {
        if !is_askable(&self.plan, position, state) {
            return Err(Refusal::State);
        }
        if let Some(round) = find(&self.store, &self.plan.time(), position, state) {
            return Ok(Answer::Distance(round));
        }
        match self.phase {
            Phase::Closed => Ok(Answer::NoRoute),
            Phase::Open | Phase::Stopped | Phase::Unfit => Ok(Answer::Untold(self.rounds)),
        }
    }

    // How far the state is from a goal; refused by Phase if unfit, then by State.
    pub fn ask(&self, position: usize, state: &State) -> Result<Answer, Refusal>
        ensures says { AskSays (P.Plan.meaning self.now.plan) (S.Store.dimension self.now.store) self.now.phase (S.Store.entries self.now.store) (S.Store.room self.now.store) self.now.rounds state.now.scale position state.now.readings.now result }
        ensures means { AskMeans (P.Plan.meaning self.now.plan) (S.Store.dimension self.now.store) self.now.phase (S.Store.entries self.now.store) (S.Store.room self.now.store) self.now.rounds state.now.scale position state.now.readings.now result }
    {
        match self.phase {
            Phase::Unfit => Err(Refusal::Phase),
            Phase::Open | Phase::Closed | Phase::Stopped => self.tell(position, state),
        }
    }
}
