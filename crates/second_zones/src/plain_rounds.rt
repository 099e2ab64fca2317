use crate::matrix::Matrix;
use crate::plain::{before_reset, earlier};
use crate::upper::Upper;
use bounds::time::PlanTime;
use plans::lent_rows::Rows;
use plans::rows::{Goal, Outcome};
use std::alloc::{AllocError, Global};
use zones::boxes::ClockBox;

// What a round holds: the states of a matrix at a position.
#[derive(Clone, Copy)]
pub struct Held {
    pub position: usize,
    pub round: u64,
    pub matrix: Matrix,
}

impl Held {
    // Whether all of it is held by the other.
    fn is_inside(&self, other: &Held) -> bool {
        self.position == other.position && self.matrix.is_inside(&other.matrix)
    }
}

// A plan in rows, with the time and the clocks that they are for.
#[derive(Clone, Copy)]
pub struct PlainPlan<'a> {
    pub time: PlanTime,
    pub clocks: usize,
    pub rows: Rows<'a>,
}

impl PlainPlan<'_> {
    // Everything that is held once a round adds nothing, or after so many rounds.
    pub fn play(&self, heap: Global, most: u64) -> Result<Vec<Held>, AllocError> {
        let mut held = Vec::new(heap);
        for goal in self.rows.goals {
            if let Some(start) = self.at_goal(goal) {
                keep(&mut held, start)?;
            }
        }
        for round in 1..most {
            let before = held.len();
            self.advance(heap, &mut held, round - 1)?;
            if held.len() == before {
                break;
            }
        }
        Ok(held)
    }

    // The next round: over everything that the last one held, by every outcome that leads there.
    fn advance(&self, heap: Global, held: &mut Vec<Held>, last: u64) -> Result<(), AllocError> {
        let of_last = held.iter().filter(|one| one.round == last);
        let reached: Vec<Held> = of_last.copied().collect(heap)?;
        for one in &reached {
            for outcome in self.rows.outcomes {
                if let Some(start) = self.over(outcome, one) {
                    keep(held, start)?;
                }
            }
        }
        Ok(())
    }

    // The states from which a wait leads to the goal.
    fn at_goal(&self, goal: &Goal) -> Option<Held> {
        let invariant = self.invariant(goal.position)?;
        let mut matrix = Matrix::open();
        self.ask_box(&mut matrix, &invariant);
        self.ask_box(&mut matrix, &goal.area);
        Some(Held {
            position: goal.position,
            round: 0,
            matrix: self.waited(&matrix, &invariant)?,
        })
    }

    // The states from which a wait and then the outcome lead into what is held, if the outcome can lead to its position.
    fn over(&self, outcome: &Outcome, held: &Held) -> Option<Held> {
        if outcome.chance == 0 || outcome.target != held.position {
            return None;
        }
        let step = self.rows.moves.get(outcome.cause.checked_sub(1)?)?;
        let invariant = self.invariant(step.source)?;
        let mut matrix = before_reset(&held.matrix, &outcome.resets)?;
        self.ask_box(&mut matrix, &step.guard);
        self.ask_box(&mut matrix, &invariant);
        Some(Held {
            position: step.source,
            round: held.round.saturating_add(1),
            matrix: self.waited(&matrix, &invariant)?,
        })
    }

    // The states from which a wait that keeps to the invariant leads into the matrix.
    fn waited(&self, matrix: &Matrix, invariant: &ClockBox) -> Option<Matrix> {
        let mut before = earlier(&matrix.closed()?)?;
        self.ask_box(&mut before, invariant);
        before.closed()
    }

    fn invariant(&self, position: usize) -> Option<ClockBox> {
        let found = self.rows.positions.get(position.checked_sub(1)?)?;
        Some(found.invariant)
    }

    fn ask_box(&self, matrix: &mut Matrix, area: &ClockBox) {
        for (k, side) in area.sides.iter().enumerate() {
            if let Some(lower) = side.lower {
                matrix.ask(0, k + 1, self.taken(Upper::from(lower).turned()));
            }
            if let Some(upper) = side.upper {
                matrix.ask(k + 1, 0, self.taken(Upper::from(upper)));
            }
        }
    }

    // The bound, as the plan's time has it.
    fn taken(&self, bound: Upper) -> Upper {
        match self.time {
            PlanTime::Cycle => bound.in_ticks(),
            PlanTime::Hand => bound,
        }
    }
}

// Keeps it, unless one that is held has all of it.
fn keep(held: &mut Vec<Held>, new: Held) -> Result<(), AllocError> {
    if !held.iter().any(|one| new.is_inside(one)) {
        held.push(new)?;
    }
    Ok(())
}
