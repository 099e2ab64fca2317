use crate::compare::compare;
use crate::plain_rounds::PlainPlan;
use bounds::bound::Bound;
use bounds::time::PlanTime;
use plans::lent_rows::Rows;
use plans::rows::{Goal, Move, Outcome, Position};
use std::alloc::Global;
use std::array::from_fn;
use zones::boxes::{ClockBox, Side};

// A box on one clock alone, counted from 1.
fn on_clock(clock: usize, side: Side) -> ClockBox {
    let sides = from_fn(|k| if k + 1 == clock {
        side
    } else {
        Side::default()
    });
    ClockBox { sides }
}

fn at_most(number: i32) -> Side {
    Side {
        lower: None,
        upper: Some(Bound::at_most(number)),
    }
}

fn at_least(number: i32) -> Side {
    Side {
        lower: Some(Bound::at_most(number)),
        upper: None,
    }
}

// A position that is kept while clock 1 reads at most so much.
fn kept(most: i32) -> Position {
    Position {
        invariant: on_clock(1, at_most(most)),
    }
}

// A move that starts once clock 1 reads at least so much.
fn from(source: usize, least: i32) -> Move {
    Move {
        source,
        guard: on_clock(1, at_least(least)),
        sum: 1000,
    }
}

// An outcome that may set clock 1 to 0.
fn outcome(cause: usize, chance: u32, target: usize, reset: bool) -> Outcome {
    Outcome {
        cause,
        chance,
        target,
        resets: from_fn(|k| k == 0 && reset),
    }
}

// One clock: at most 4 in the first position, at least 2 for its move, which now and then starts anew.
pub fn compare_small_plan(heap: Global) -> anyhow::Result<usize> {
    let plan = PlainPlan {
        time: PlanTime::Hand,
        clocks: 1,
        rows: Rows {
            positions: &[kept(4), Position::default()],
            moves: &[from(1, 2)],
            outcomes: &[outcome(1, 950, 2, false), outcome(1, 50, 1, true)],
            goals: &[Goal {
                position: 2,
                area: ClockBox::default(),
            }],
        },
    };
    compare(heap, &plan)
}

// A communication protocol: a message is sent after 1 to 2 ticks, is lost in one of ten cases, and is sent again after 2 to 3, until it is received.
// Clock 1 runs since the last try and clock 2 from the start; the goal is to have it received in under 6 ticks.
pub fn compare_protocol(heap: Global) -> anyhow::Result<usize> {
    let in_time = Side {
        lower: None,
        upper: Some(Bound::below(6)),
    };
    let plan = PlainPlan {
        time: PlanTime::Hand,
        clocks: 2,
        rows: Rows {
            positions: &[kept(2), kept(3), Position::default()],
            moves: &[from(1, 1), from(2, 2)],
            outcomes: &[
                outcome(1, 900, 3, true),
                outcome(1, 100, 2, true),
                outcome(2, 950, 3, true),
                outcome(2, 50, 2, true),
            ],
            goals: &[Goal {
                position: 3,
                area: on_clock(2, in_time),
            }],
        },
    };
    compare(heap, &plan)
}
