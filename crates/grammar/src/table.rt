ghost use Rattle.std.specs.Prelude.{◌≡◌, true, is_ok};
ghost use Rattle.plans.specs.RowLists.{kept, taken};
ghost use Rattle.plans.specs.RowChecks.{RowsFine};
ghost use Rattle.texts.specs.PlanRows.{tables};
ghost use Rattle.grammar.specs.Tables.{TableSays};

use bounds::time::TimeDomain;
use plans::faults::RowFault;
use plans::lent_rows::Rows;
use plans::table::TablePlan;
use texts::plan_rows::PlanRows;

// The table plan over the rows taken, built through the row check: it stands on these rows, and rows that are fine are not refused.
pub fn table_over<'a, T: TimeDomain + Copy>(
    time: T,
    clocks: usize,
    rows: &'a PlanRows,
) -> Result<TablePlan<'a, T>, RowFault>
    ensures is { TableSays time clocks (tables rows.now) result }
    ensures passes { RowsFine clocks (taken (tables rows.now).positions) (taken (tables rows.now).moves) (taken (tables rows.now).outcomes) (taken (tables rows.now).goals) → is_ok result ≡ true }
{
    TablePlan::new(
        time,
        clocks,
        Rows {
            positions: rows.positions.rows(),
            moves: rows.moves.rows(),
            outcomes: rows.outcomes.rows(),
            goals: rows.goals.rows(),
        },
    )
}
