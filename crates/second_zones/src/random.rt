ghost use Rattle.std.specs.Prelude.{◌<◌};

use crate::plain_rounds::PlainPlan;
use bounds::bound::Bound;
use bounds::time::PlanTime;
use plans::lent_rows::Rows;
use plans::rows::{Goal, Move, Outcome, Position};
use std::array::from_fn;
use zones::boxes::{ClockBox, Side};

// A plan in rows of its own.
#[derive(Clone, Copy)]
pub struct RandomPlan {
    time: PlanTime,
    clocks: usize,
    positions: [Position; 4],
    moves: [Move; 4],
    outcomes: [Outcome; 8],
    goals: [Goal; 2],
}

impl RandomPlan {
    // The plan, with its rows lent.
    pub fn plain(&self) -> PlainPlan<'_> {
        PlainPlan {
            time: self.time,
            clocks: self.clocks,
            rows: Rows {
                positions: &self.positions,
                moves: &self.moves,
                outcomes: &self.outcomes,
                goals: &self.goals,
            },
        }
    }
}

// A sequence of numbers from a seed.
#[derive(Clone, Copy)]
pub struct Numbers {
    last: u64,
}

impl Numbers {
    pub fn new(seed: u64) -> Numbers {
        Numbers { last: seed }
    }

    // The next number below the limit, or 0 where that is 0.
    pub fn next(&mut self, limit: u32) -> u32
        ensures { 0 < limit → result < limit }
    {
        self.last = self
            .last
            .wrapping_mul(6_364_136_223_846_793_005)
            .wrapping_add(1_442_695_040_888_963_407);
        let high = ((self.last >> 33) & 0x7fff_ffff) as u32;
        if limit == 0 { 0 } else { high % limit }
    }

    fn coin(&mut self) -> bool {
        self.next(2) == 0
    }

    fn bound(&mut self) -> Option<Bound> {
        if self.coin() {
            return None;
        }
        let closed = self.coin();
        let number = self.next(7) as i32;
        Some(Bound { number, closed })
    }

    // What is asked of a clock, seldom from below.
    fn side(&mut self) -> Side {
        let upper = self.bound();
        let lower = if self.coin() { None } else { self.bound() };
        Side { lower, upper }
    }

    // A box on the first clocks.
    fn area(&mut self, clocks: usize) -> ClockBox {
        let sides = from_fn(|k| {
            if k < clocks {
                self.side()
            } else {
                Side::default()
            }
        });
        ClockBox { sides }
    }

    fn resets(&mut self, clocks: usize) -> [bool; 8] {
        from_fn(|k| k < clocks && self.next(3) == 0)
    }

    fn name(&mut self, count: u32) -> usize {
        1 + self.next(count) as usize
    }

    // A plan of 1 to 3 clocks, 4 positions, 4 moves with two outcomes each, and 2 goals.
    pub fn plan(&mut self) -> RandomPlan {
        let time = if self.coin() {
            PlanTime::Cycle
        } else {
            PlanTime::Hand
        };
        let clocks = self.name(3);
        let positions = from_fn(|_| Position {
            invariant: self.area(clocks),
        });
        let moves = from_fn(|_| Move {
            source: self.name(4),
            guard: self.area(clocks),
            sum: 1000,
        });
        let outcomes = from_fn(|k| Outcome {
            cause: 1 + k / 2,
            chance: if k % 2 == 0 { 900 } else { 100 },
            target: self.name(4),
            resets: self.resets(clocks),
        });
        let goals = from_fn(|_| Goal {
            position: self.name(4),
            area: self.area(clocks),
        });
        RandomPlan {
            time,
            clocks,
            positions,
            moves,
            outcomes,
            goals,
        }
    }
}
