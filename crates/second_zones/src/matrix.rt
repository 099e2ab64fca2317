use crate::upper::Upper;
use std::array::from_fn;

// Rows and columns: clock 0, the clocks 1 to 8, and one more for an unknown wait.
const SIDE: usize = 10;

// What is asked of the differences: cell (i, j) bounds reading i minus reading j.
#[derive(Clone, Copy)]
pub struct Matrix {
    cells: [[Upper; SIDE]; SIDE],
}

impl Matrix {
    // Every reading is 0 or more.
    pub fn open() -> Matrix {
        let cells = from_fn(|i| {
            from_fn(|j| {
                if i == 0 || i == j {
                    Upper::ZERO
                } else {
                    Upper::Free
                }
            })
        });
        Matrix { cells }
    }

    // The bound at (i, j); none where there is no such place.
    pub fn at(&self, i: usize, j: usize) -> Upper {
        if i < SIDE && j < SIDE {
            self.cells[i][j]
        } else {
            Upper::Free
        }
    }

    // Asks for the bound at (i, j) too, if there is such a place.
    pub fn ask(&mut self, i: usize, j: usize, bound: Upper) {
        if i < SIDE && j < SIDE {
            self.cells[i][j] = self.cells[i][j].tightest(bound);
        }
    }

    // Lets go of the bound at (i, j), if there is such a place.
    pub fn forget(&mut self, i: usize, j: usize) {
        if i < SIDE && j < SIDE {
            self.cells[i][j] = Upper::Free;
        }
    }

    // Every bound that follows from the others, by all ways between all pairs; none where they contradict each other.
    pub fn closed(&self) -> Option<Matrix> {
        let mut next = *self;
        // Each step names three cells of the same matrix, so it goes by their numbers.
        for k in 0..SIDE {
            for i in 0..SIDE {
                for j in 0..SIDE {
                    next.ask(i, j, next.at(i, k) + next.at(k, j));
                }
            }
        }
        if (0..SIDE).any(|i| next.at(i, i).is_tighter(Upper::ZERO)) {
            return None;
        }
        Some(next)
    }

    // Whether every state of this one lies in the other; both follow from their bounds.
    pub fn is_inside(&self, other: &Matrix) -> bool {
        let pairs = self.cells.as_flattened().iter();
        pairs
            .zip(other.cells.as_flattened())
            .all(|(x, y)| !y.is_tighter(*x))
    }
}
