ghost use Rattle.std.specs.Prelude.{◌≡◌, true, false};
ghost use Rattle.bounds.specs.Bounds.{upto};
ghost use Rattle.bounds.specs.Sums.{bound_of, Reached, OutOfReach, Vast, SumSays, Equal};

use crate::refusal::Refusal;

// A bound on a difference of two readings: `<= number` if it is closed, and `< number` if not.
// Where there may be none, it is an `Option`.
#[derive(Clone, Copy, PartialEq, Eq, Debug)]
pub struct Bound {
    pub number: i32,
    pub closed: bool,
}

impl Bound {
    // `<= number`
    pub fn at_most(number: i32) -> Bound
        ensures { result ≡ record { number = number; closed = true } }
    {
        Bound {
            number,
            closed: true,
        }
    }

    // `< number`
    pub fn below(number: i32) -> Bound
        ensures { result ≡ record { number = number; closed = false } }
    {
        Bound {
            number,
            closed: false,
        }
    }
}

// The sum of two bounds, of which each may be none; it is `<=` only if both are.
pub fn sum(a: Option<Bound>, b: Option<Bound>) -> Result<Option<Bound>, Refusal>
    ensures { SumSays (bound_of a) (bound_of b) result }
{
    let (Some(x), Some(y)) = (a, b) else {
        return Ok(None);
    };
    let number = i64::from(x.number) + i64::from(y.number);
    if !reaches(number) {
        return Err(Refusal::Number);
    }
    Ok(Some(Bound {
        number: number as i32,
        closed: x.closed && y.closed,
    }))
}

// Whether the number of a bound is within ±1,000,000,000.
pub fn in_reach(bound: Bound) -> bool
    ensures { (result ≡ true → Vast (upto bound.closed bound.number) → ⊥) × (result ≡ false → Vast (upto bound.closed bound.number)) }
{
    reaches(i64::from(bound.number))
}

// Whether a number is within ±1,000,000,000.
fn reaches(number: i64) -> bool
    ensures { (result ≡ true → Reached number) × (result ≡ false → OutOfReach number) }
{
    (-1_000_000_000..=1_000_000_000).contains(&number)
}

// Whether two bounds, of which each may be none, are the same.
pub fn equal(a: Option<Bound>, b: Option<Bound>) -> bool
    ensures { Equal (bound_of a) (bound_of b) result }
{
    a == b
}
