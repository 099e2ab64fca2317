ghost use Rattle.std.specs.Prelude.{◌≡◌, ◌≢◌, ℕ, ◌^◌, ◌<◌, ◌≤◌, length, sum, Decides, MatchResult, slice_index_or};
ghost use Rattle.plans.specs.Boxes.{BoxOf};
ghost use Rattle.plans.specs.Items.{Names};
ghost use Rattle.plans.specs.Meaning.{OutcomeOf, chances, no_outcome};
ghost use Rattle.plans.specs.FirstFaults.{Accepts, Refuses};
ghost use Rattle.plans.specs.RowChecks.{chances_in, CountWrong, Counts, PlacedWrong, NoResets, OutcomeWrong, PositionsFine, MovesFine, OutcomesFine, GoalsFine, ChancesFine, PositionFault, MoveFault, OutcomeFault, GoalFault, ChanceFault, CheckSays};

use super::box_check::check_box;
use super::faults::{PlanList, RowFault};
use super::lent_rows::Rows;
use super::rows::{Goal, Move, Outcome, Position};
use bounds::refusal::Refusal;
use zones::boxes::ClockBox;

// Whether the name is one of those from 1 to the count.
fn named(count: usize, name: usize) -> bool
    ensures { Decides result (Names count name) }
{
    (1..=count).contains(&name)
}

// The counts that names are held against.
#[derive(Clone, Copy)]
struct Sizes {
    clocks: usize,
    positions: usize,
    moves: usize,
}

// Refuses a box at a position: by Number, and then by Name.
fn check_placed(b: &ClockBox, position: usize, sizes: Sizes) -> Result<(), Refusal>
    ensures { MatchResult result (λ _. Names sizes.positions position × BoxOf sizes.clocks b.now) (λ e. PlacedWrong sizes.clocks sizes.positions position b.now e) }
{
    check_box(b, sizes.clocks)?;
    if !named(sizes.positions, position) {
        return Err(Refusal::Name);
    }
    Ok(())
}

// Whether no clock above the count is reset.
fn resets_fit(resets: &[bool], clocks: usize) -> bool
    ensures { Decides result (NoResets clocks resets.now) }
{
    !resets.iter().skip(clocks).any(|r| *r)
}

fn check_outcome(o: &Outcome, sizes: Sizes) -> Result<(), Refusal>
    ensures { MatchResult result (λ _. OutcomeOf sizes.clocks sizes.positions sizes.moves o.now) (λ e. OutcomeWrong sizes.clocks sizes.positions sizes.moves o.now e) }
{
    if o.chance > 1000 {
        return Err(Refusal::Number);
    }
    if !named(sizes.moves, o.cause) {
        return Err(Refusal::Name);
    }
    if !named(sizes.positions, o.target) {
        return Err(Refusal::Name);
    }
    if !resets_fit(&o.resets, sizes.clocks) {
        return Err(Refusal::Name);
    }
    Ok(())
}

// Refuses the first row that the check refuses; each row is told to the check with its number, from 1.
fn first_fault<R, F: Fn(usize, &R) -> Result<(), Refusal>>(
    list: PlanList,
    rows: &[R],
    check: F,
) -> Result<(), RowFault>
    requires { F.IsAlwaysCallable check }
    ensures { MatchResult result (λ _. Accepts F.Fn check rows.now (length rows.now)) (λ f. Refuses F.Fn check rows.now list f) }
{
    for (i, row) in rows.iter().enumerate() {
        check(i + 1, row).map_err(|refusal| RowFault {
            refusal,
            list,
            row: Some(i + 1),
        })?;
    }
    Ok(())
}

fn check_positions(positions: &[Position], clocks: usize) -> Result<(), RowFault>
    ensures { MatchResult result (λ _. PositionsFine clocks positions.now (length positions.now)) (λ f. PositionFault clocks positions.now f) }
{
    first_fault(
        PlanList::Positions,
        positions,
        |_, p| check_box(&p.invariant, clocks),
    )
}

fn check_moves(moves: &[Move], sizes: Sizes) -> Result<(), RowFault>
    ensures { MatchResult result (λ _. MovesFine sizes.clocks sizes.positions moves.now (length moves.now)) (λ f. MoveFault sizes.clocks sizes.positions moves.now f) }
{
    first_fault(
        PlanList::Moves,
        moves,
        |_, m| check_placed(&m.guard, m.source, sizes),
    )
}

fn check_outcomes(outcomes: &[Outcome], sizes: Sizes) -> Result<(), RowFault>
    ensures { MatchResult result (λ _. OutcomesFine sizes.clocks sizes.positions sizes.moves outcomes.now (length outcomes.now)) (λ f. OutcomeFault sizes.clocks sizes.positions sizes.moves outcomes.now f) }
{
    first_fault(PlanList::Outcomes, outcomes, |_, o| check_outcome(o, sizes))
}

fn check_goals(goals: &[Goal], sizes: Sizes) -> Result<(), RowFault>
    ensures { MatchResult result (λ _. GoalsFine sizes.clocks sizes.positions goals.now (length goals.now)) (λ f. GoalFault sizes.clocks sizes.positions goals.now f) }
{
    first_fault(
        PlanList::Goals,
        goals,
        |_, g| check_placed(&g.area, g.position, sizes),
    )
}

// The chances of move k, from 1, added up over the outcomes, whatever the sum in the move's own row.
fn chances_of(outcomes: &[Outcome], k: usize) -> u32
    requires { sum (chances_in k outcomes.now) < 2 ^ 32 }
    ensures { result ≡ sum (chances_in k outcomes.now) }
{
    // By a loop: with a chain of `filter`, `map` and `sum` the row check took half as long again.
    let mut sum = 0;
    for o in outcomes {
        if o.cause == k {
            sum += o.chance;
        }
    }
    sum
}

// Refuses move k, from 1, by Chance.
fn check_chance(outcomes: &[Outcome], k: usize) -> Result<(), Refusal>
    requires few { length outcomes.now ≤ 512 }
    requires small { (j : ℕ) → j < length outcomes.now → (slice_index_or outcomes.now j no_outcome).chance ≤ 1000 }
    ensures { MatchResult result (λ _. chances k outcomes.now ≡ 1000) (λ e. (chances k outcomes.now ≢ 1000) × (e ≡ Refusal.Chance)) }
{
    if chances_of(outcomes, k) != 1000 {
        return Err(Refusal::Chance);
    }
    Ok(())
}

fn check_chances(moves: &[Move], outcomes: &[Outcome]) -> Result<(), RowFault>
    requires few { length outcomes.now ≤ 512 }
    requires small { (j : ℕ) → j < length outcomes.now → (slice_index_or outcomes.now j no_outcome).chance ≤ 1000 }
    ensures { MatchResult result (λ _. ChancesFine outcomes.now (length moves.now)) (λ f. ChanceFault (length moves.now) outcomes.now f) }
{
    first_fault(PlanList::Moves, moves, |k, _| check_chance(outcomes, k))
}

// Refuses the first list that has too many rows; a plan has at least one position.
fn check_counts(rows: Rows) -> Result<(), PlanList>
    ensures { MatchResult result (λ _. Counts (length rows.entry.positions.now) (length rows.entry.moves.now) (length rows.entry.outcomes.now) (length rows.entry.goals.now)) (λ l. CountWrong (length rows.entry.positions.now) (length rows.entry.moves.now) (length rows.entry.outcomes.now) (length rows.entry.goals.now) l) }
{
    if !named(64, rows.positions.len()) {
        return Err(PlanList::Positions);
    }
    if rows.moves.len() > 256 {
        return Err(PlanList::Moves);
    }
    if rows.outcomes.len() > 512 {
        return Err(PlanList::Outcomes);
    }
    if rows.goals.len() > 64 {
        return Err(PlanList::Goals);
    }
    Ok(())
}

// The row check: the clock count, the counts of rows, then each list row by row, then the chances.
pub fn check_rows(clocks: usize, rows: Rows) -> Result<(), RowFault>
    ensures { CheckSays clocks rows.entry.positions.now rows.entry.moves.now rows.entry.outcomes.now rows.entry.goals.now result }
{
    if !named(8, clocks) {
        return Err(RowFault {
            refusal: Refusal::Number,
            list: PlanList::Clocks,
            row: None,
        });
    }
    check_counts(rows).map_err(|list| RowFault {
        refusal: Refusal::Rows,
        list,
        row: None,
    })?;
    let Rows {
        positions,
        moves,
        outcomes,
        goals,
    } = rows;
    let sizes = Sizes {
        clocks,
        positions: positions.len(),
        moves: moves.len(),
    };
    check_positions(positions, clocks)?;
    check_moves(moves, sizes)?;
    check_outcomes(outcomes, sizes)?;
    check_goals(goals, sizes)?;
    check_chances(moves, outcomes)
}
