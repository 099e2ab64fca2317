ghost use Rattle.std.specs.Prelude.{◌≡◌, ◌-◌, ◌≤◌, MatchResult, slice_index_or};
ghost use Rattle.plans.specs.Meaning.{no_box};
ghost use Rattle.layers.specs.Narrowing.{narrow_box};
ghost use Rattle.layers.specs.Restrictions.{restricted, RestrictionRefused, BoxesFor};
ghost use Rattle.layers.specs.LayersSound.{Fine, fine, restricted_sound};
ghost use Rattle.layers.specs.Theorems.{RestrictedRuns, RestrictedRoutes};

use super::narrowing::narrow;
use super::refused::NotLaid;
use bounds::refusal::Refusal;
use plans::box_check::check_boxes;
use plans::plan::Plan;
use plans::rows::{Goal, Move, Outcome, Position};
use zones::boxes::ClockBox;

// A restriction over any plan: each invariant is narrowed by a box of its own.
#[derive(Drop)]
pub struct Restriction<'a, P: Plan> {
    below: P,
    boxes: &'a [ClockBox],
    ghost fits: { ∥ Fine boxes.now ∥₁ },
}

impl<'a, P: Plan> Restriction<'a, P> {
    // Refuses another count of boxes than of positions, and then the first wrong box.
    pub fn new(below: P, boxes: &'a [ClockBox]) -> Result<Restriction<'a, P>, NotLaid<P>>
        ensures { MatchResult result (λ d. (d.below ≡ below) × (d.boxes.now ≡ boxes.now) × BoxesFor (P.Plan.meaning below) boxes.now) (λ e. (e.below ≡ below) × RestrictionRefused (P.Plan.meaning below) boxes.now e.refusal) }
    {
        if boxes.len() != below.positions() {
            return Err(NotLaid {
                refusal: Refusal::Rows,
                below,
            });
        }
        // No `map_err`: its closure would take the plan away from the restriction.
        if let Err(refusal) = check_boxes(boxes, below.clocks()) {
            return Err(NotLaid { refusal, below });
        }
        Ok(Restriction { below, boxes })
    }

    // The boxes that the invariants are narrowed by.
    pub fn boxes(&self) -> &'a [ClockBox]
        ensures is { result.now ≡ self.now.boxes.now }
        ensures runs { RestrictedRuns result.now (P.Plan.meaning self.now.below) }
        ensures routes { RestrictedRoutes result.now (P.Plan.meaning self.now.below) }
    {
        self.boxes
    }
}

// The calls that are the plan's below are handed on one by one: no trait can do so for every layer, since Plan is another crate's.
impl<'a, P: Plan> Plan for Restriction<'a, P> {
    type Time = P::Time;

    ghost meaning = { λ d. restricted d.boxes.now (P.Plan.meaning d.below) };

    ghost sound = { λ d. restricted_sound d.boxes.now (P.Plan.meaning d.below) (fine d.boxes.now d.fits) (P.Plan.sound d.below) };

    fn time(&self) -> P::Time {
        self.below.time()
    }

    fn clocks(&self) -> usize {
        self.below.clocks()
    }

    fn positions(&self) -> usize {
        self.below.positions()
    }

    fn position(&self, k: usize) -> Result<Position, Refusal> {
        let p = self.below.position(k)?;
        Ok(narrow_position(self.boxes, k, self.below.clocks(), p))
    }

    fn moves(&self) -> usize {
        self.below.moves()
    }

    fn move_at(&self, k: usize) -> Result<Move, Refusal> {
        self.below.move_at(k)
    }

    fn outcomes(&self) -> usize {
        self.below.outcomes()
    }

    fn outcome(&self, k: usize) -> Result<Outcome, Refusal> {
        self.below.outcome(k)
    }

    fn goals(&self) -> usize {
        self.below.goals()
    }

    fn goal(&self, k: usize) -> Result<Goal, Refusal> {
        self.below.goal(k)
    }
}

// Position k, from 1, narrowed by its box.
fn narrow_position(boxes: &[ClockBox], k: usize, clocks: usize, p: Position) -> Position
    requires { (1 ≤ k) × (clocks ≤ 8) }
    ensures { result.invariant ≡ narrow_box clocks (slice_index_or boxes.now (k - 1) no_box) p.invariant }
{
    match boxes.get(k - 1) {
        Some(b) => Position {
            invariant: narrow(*b, clocks, p.invariant),
        },
        None => p,
    }
}
