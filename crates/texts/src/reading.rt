ghost use Rattle.std.specs.Prelude.{◌≡◌, ◌*◌, ◌≤◌, length};
ghost use Rattle.plans.specs.RowLists.{kept};
ghost use Rattle.texts.specs.declared.words.Phase.TheVariants.{Moves};
ghost use Rattle.texts.specs.PlanRows.{open_sum};

use crate::line::Line;
use crate::plan_rows::PlanRows;
use crate::standing::Standing;
use crate::words::Phase;
use bounds::time::PlanTime;

// A text as it is read, between two lines: where in it the reader is, what the line `T` said, the line of the last move, and the lists.
// A move is open only if there is one, and its chances so far fit its row. Before the line `T` and the first move these hold nothing,
// and the phase says so: an Option beside it would say the same twice.
#[derive(Drop)]
pub struct Reading<'t, 'r, 'a> {
    pub phase: Phase,
    pub time: PlanTime,
    pub clocks: usize,
    pub opening: Line<'t>,
    pub rows: &'r mut PlanRows<'a>,
    ghost few: { rows.now.positions.used ≤ 64 },
    ghost counted: { clocks ≤ 8 },
    ghost outcomes: { rows.now.outcomes.used ≤ 512 },
    ghost some: { phase ≡ Moves → 1 ≤ rows.now.moves.used },
    ghost fits: { rows.now.moves.used ≤ length rows.now.moves.rows.now },
    ghost sums: { phase ≡ Moves → open_sum (kept rows.now.moves) ≤ 1000 * rows.now.outcomes.used },
}

impl<'t, 'r, 'a> Reading<'t, 'r, 'a> {
    // Where the next line stands.
    pub fn standing(&self) -> Standing
        ensures phase { result.phase ≡ self.now.phase }
        ensures positions { result.positions ≡ self.now.rows.now.positions.used }
        ensures clocks { result.clocks ≡ self.now.clocks }
    {
        Standing {
            phase: self.phase,
            positions: self.rows.positions.len(),
            clocks: self.clocks,
        }
    }
}
