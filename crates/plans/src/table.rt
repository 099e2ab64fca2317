ghost use Rattle.std.specs.Prelude.{◌≡◌, MatchResult};
ghost use Rattle.plans.specs.RowChecks.{RowsFine, RowsWrong};
ghost use Rattle.plans.specs.Tables.{tabled, table_sound};

use super::faults::RowFault;
use super::item::item;
use super::lent_rows::Rows;
use super::plan::Plan;
use super::row_check::check_rows;
use super::rows::{Goal, Move, Outcome, Position};
use bounds::refusal::Refusal;
use bounds::time::TimeDomain;

// A plan that stands on lent rows that passed the row check.
#[derive(Drop)]
pub struct TablePlan<'a, T> {
    time: T,
    clocks: usize,
    rows: Rows<'a>,
    ghost fits: { ∥ RowsFine clocks rows.positions.now rows.moves.now rows.outcomes.now rows.goals.now ∥₁ },
}

impl<'a, T: TimeDomain + Copy> TablePlan<'a, T> {
    // The row check, and then the plan that the rows are.
    pub fn new(time: T, clocks: usize, rows: Rows<'a>) -> Result<TablePlan<'a, T>, RowFault>
        ensures { MatchResult result (λ t. (t.time ≡ time) × (t.clocks ≡ clocks) × (t.rows.positions.now ≡ rows.entry.positions.now) × (t.rows.moves.now ≡ rows.entry.moves.now) × (t.rows.outcomes.now ≡ rows.entry.outcomes.now) × (t.rows.goals.now ≡ rows.entry.goals.now)) (λ f. RowsWrong clocks rows.entry.positions.now rows.entry.moves.now rows.entry.outcomes.now rows.entry.goals.now f) }
    {
        check_rows(clocks, rows)?;
        Ok(TablePlan { time, clocks, rows })
    }
}

impl<'a, T: TimeDomain + Copy> Plan for TablePlan<'a, T> {
    type Time = T;

    ghost meaning = { λ t. tabled (T.TimeDomain.allows t.time) (T.TimeDomain.normal t.time) t.clocks t.rows.positions.now t.rows.moves.now t.rows.outcomes.now t.rows.goals.now };

    ghost sound = { λ t. table_sound (T.TimeDomain.allows t.time) (T.TimeDomain.normal t.time) t.clocks t.rows.positions.now t.rows.moves.now t.rows.outcomes.now t.rows.goals.now ∣ (T.TimeDomain).lawful t.time ∣₁ t.fits };

    fn time(&self) -> T {
        self.time
    }

    fn clocks(&self) -> usize {
        self.clocks
    }

    fn positions(&self) -> usize {
        self.rows.positions.len()
    }

    fn position(&self, k: usize) -> Result<Position, Refusal> {
        item(self.rows.positions, k)
    }

    fn moves(&self) -> usize {
        self.rows.moves.len()
    }

    fn move_at(&self, k: usize) -> Result<Move, Refusal> {
        item(self.rows.moves, k)
    }

    fn outcomes(&self) -> usize {
        self.rows.outcomes.len()
    }

    fn outcome(&self, k: usize) -> Result<Outcome, Refusal> {
        item(self.rows.outcomes, k)
    }

    fn goals(&self) -> usize {
        self.rows.goals.len()
    }

    fn goal(&self, k: usize) -> Result<Goal, Refusal> {
        item(self.rows.goals, k)
    }
}
