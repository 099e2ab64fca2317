ghost use Rattle.std.specs.Prelude.{◌≡◌};
ghost use Rattle.texts.specs.PlanRows.{tables, untaken};

use plans::row_list::RowList;
use plans::rows::{Goal, Move, Outcome, Position};

// The four lists that a plan is read into.
#[derive(Drop)]
pub struct PlanRows<'a> {
    pub positions: RowList<'a, Position>,
    pub moves: RowList<'a, Move>,
    pub outcomes: RowList<'a, Outcome>,
    pub goals: RowList<'a, Goal>,
}

impl<'a> PlanRows<'a> {
    // Lists that have taken none of these rows.
    pub fn over(
        positions: &'a mut [Position],
        moves: &'a mut [Move],
        outcomes: &'a mut [Outcome],
        goals: &'a mut [Goal],
    ) -> PlanRows<'a>
        ensures { tables result ≡ untaken positions.old moves.old outcomes.old goals.old }
    {
        let positions = RowList::new(positions);
        let moves = RowList::new(moves);
        let outcomes = RowList::new(outcomes);
        let goals = RowList::new(goals);
        PlanRows {
            positions,
            moves,
            outcomes,
            goals,
        }
    }
}
