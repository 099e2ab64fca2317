use bounds::bound::Bound;
use std::fmt;
use std::ops::Add;

// An upper bound on a difference, as a case each: none, `<= c`, `< c`, which allows less. It is a type of its own, since this library shares no
// representation with the first one. Its order is written: the derived one of a number with an edge beside it was tried, but a matrix took half as
// much room again. Each pair of two numbers has a line of its own: put together by `|`, with the cases in another order, a run took a tenth longer.
#[derive(Clone, Copy, PartialEq, Eq, Debug)]
pub enum Upper {
    Free,
    AtMost(i64),
    Below(i64),
}

impl Upper {
    pub const ZERO: Upper = Upper::AtMost(0);

    // Whether this one allows less than the other.
    pub fn is_tighter(self, other: Upper) -> bool {
        match (self, other) {
            (Upper::Free, _) => false,
            (Upper::AtMost(_) | Upper::Below(_), Upper::Free) => true,
            (Upper::AtMost(x), Upper::AtMost(y)) => x < y,
            (Upper::Below(x), Upper::Below(y)) => x < y,
            (Upper::AtMost(x), Upper::Below(y)) => x < y,
            (Upper::Below(x), Upper::AtMost(y)) => x <= y,
        }
    }

    // The one of the two that allows less.
    pub fn tightest(self, other: Upper) -> Upper {
        if other.is_tighter(self) { other } else { self }
    }

    // The upper bound that a lower bound is, once the difference is turned round.
    pub fn turned(self) -> Upper {
        match self {
            Upper::Below(c) => Upper::Below(c.saturating_neg()),
            Upper::AtMost(c) => Upper::AtMost(c.saturating_neg()),
            Upper::Free => Upper::Free,
        }
    }

    // `< c` in whole ticks is `<= c - 1`.
    pub fn in_ticks(self) -> Upper {
        match self {
            Upper::Below(c) => Upper::AtMost(c.saturating_sub(1)),
            _ => self,
        }
    }
}

// Both bounds one after the other: it is met with its number only if both are.
impl Add for Upper {
    type Output = Upper;

    fn add(self, other: Upper) -> Upper {
        match (self, other) {
            (Upper::AtMost(x), Upper::AtMost(y)) => Upper::AtMost(x.saturating_add(y)),
            (Upper::AtMost(x), Upper::Below(y)) => Upper::Below(x.saturating_add(y)),
            (Upper::Below(x), Upper::AtMost(y)) => Upper::Below(x.saturating_add(y)),
            (Upper::Below(x), Upper::Below(y)) => Upper::Below(x.saturating_add(y)),
            _ => Upper::Free,
        }
    }
}

impl From<Bound> for Upper {
    fn from(bound: Bound) -> Upper {
        let number = i64::from(bound.number);
        if bound.closed {
            Upper::AtMost(number)
        } else {
            Upper::Below(number)
        }
    }
}

// As it stands in a line; one that is none writes nothing.
impl fmt::Display for Upper {
    fn fmt<W: fmt::Write>(&self, f: &mut fmt::Formatter<W>) -> fmt::Result {
        match *self {
            Upper::Below(c) => write!(f, "<{c}"),
            Upper::AtMost(c) => write!(f, "<={c}"),
            Upper::Free => Ok(()),
        }
    }
}
