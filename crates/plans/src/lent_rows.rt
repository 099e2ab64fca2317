use super::rows::{Goal, Move, Outcome, Position};

// The four lists of rows that a plan is made of, lent together.
#[derive(Clone, Copy)]
pub struct Rows<'a> {
    pub positions: &'a [Position],
    pub moves: &'a [Move],
    pub outcomes: &'a [Outcome],
    pub goals: &'a [Goal],
}
