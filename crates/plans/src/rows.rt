use zones::boxes::ClockBox;

// A position, with the box that a state there has to lie in.
#[derive(Clone, Copy, PartialEq, Eq, Default, Debug)]
pub struct Position {
    pub invariant: ClockBox,
}

// A move starts at a position, from states that lie in its guard. Positions and moves are named by their row, from 1.
// The sum is for whoever fills the rows outcome by outcome: the chances of its outcomes so far. It has no part in what a plan means.
// `==` compares the sum too.
#[derive(Clone, Copy, PartialEq, Eq, Default, Debug)]
pub struct Move {
    pub source: usize,
    pub guard: ClockBox,
    pub sum: u32,
}

// An outcome of the move `cause`, with its chance in thousandths, the position that it leads to, and the clocks that it sets to 0.
#[derive(Clone, Copy, PartialEq, Eq, Default, Debug)]
pub struct Outcome {
    pub cause: usize,
    pub chance: u32,
    pub target: usize,
    pub resets: [bool; 8],
}

// A goal is reached at its position, in a state that lies in its box.
#[derive(Clone, Copy, PartialEq, Eq, Default, Debug)]
pub struct Goal {
    pub position: usize,
    pub area: ClockBox,
}
