ghost use Rattle.std.specs.Prelude.{◌<◌};

use crate::matrix::Matrix;
use crate::upper::Upper;

// The row and column of the unknown wait.
const WAIT: usize = 9;

// The states from which some wait of 0 or more leads into the matrix: the reading of the extra clock stands for
// minus the wait, and is then let go.
pub fn earlier(m: &Matrix) -> Option<Matrix> {
    let mut n = Matrix::open();
    n.forget(0, WAIT);
    n.ask(WAIT, 0, Upper::ZERO);
    // Each step names cells of both matrices, in rows and in columns, so it goes by their numbers.
    for i in 1..WAIT {
        n.ask(i, WAIT, m.at(i, 0));
        n.ask(WAIT, i, m.at(0, i));
        for j in 1..WAIT {
            n.ask(i, j, m.at(i, j));
        }
    }
    let mut n = n.closed()?;
    // A row and a column of the same matrix are let go together.
    for i in 0..WAIT {
        n.forget(i, WAIT);
        n.forget(WAIT, i);
    }
    n.ask(0, WAIT, Upper::ZERO);
    n.closed()
}

// The states that lie in the matrix once the clocks are set to 0: what is asked of such a clock is asked of clock 0.
pub fn before_reset(m: &Matrix, resets: &[bool; 8]) -> Option<Matrix> {
    let mut n = Matrix::open();
    // Each cell may go to another place, so this goes by their numbers.
    for i in 0..WAIT {
        for j in 0..WAIT {
            n.ask(shown(i, resets), shown(j, resets), m.at(i, j));
        }
    }
    n.closed()
}

// Clock 0 for a clock that is set to 0.
fn shown(i: usize, resets: &[bool; 8]) -> usize
    requires { i < 9 }
    ensures { result < 9 }
{
    if i >= 1 && resets[i - 1] { 0 } else { i }
}
