ghost use Rattle.std.specs.Prelude.{◌≡◌, ℕ, ◌<◌, ◌≤◌, min, true, false, pos, negsuc, neg_ℤ, ◌≤ℤ◌};
ghost use Rattle.bounds.specs.Bounds.{upto};
ghost use Rattle.bounds.specs.Sums.{bound_of};
ghost use Rattle.bounds.specs.Logic.{Iff};
ghost use Rattle.zones.specs.Codes.{Near, code_at, code_plus, decode};

use bounds::bound::Bound;
use bounds::time::TimeDomain;

// A bound's code, of which the smaller is the tighter: twice its number, shifted by BIAS, and 1 more for `<=`.
#[derive(Clone, Copy, PartialEq, Eq, PartialOrd, Ord, Debug)]
pub struct Code(pub u32);

pub const NONE: Code = Code(u32::MAX);

pub const BIAS: u32 = 16_777_216;

pub const REACH: u32 = 4_000_000;

// The code of `<= 0`.
pub const LEVEL: Code = Code(33_554_433);

impl Code {
    // The code of a bound. No `From`, since the bound's number has to be within reach.
    pub fn of(bound: Bound) -> Code
        requires { (negsuc 3999999 ≤ℤ bound.number) × (bound.number ≤ℤ pos 4000000) }
        ensures bound { decode result.0 ≡ upto bound.closed bound.number }
        ensures near { (r : ℕ) → r ≤ 4000000 → neg_ℤ (pos r) ≤ℤ bound.number → bound.number ≤ℤ pos r → Near r result.0 }
    {
        let half = (bound.number + BIAS as i32) as u32;
        if bound.closed {
            Code(2 * half + 1)
        } else {
            Code(2 * half)
        }
    }

    // The bound that the code stands for.
    pub fn bound(self) -> Option<Bound>
        ensures { bound_of result ≡ decode self.0 }
    {
        if self == NONE {
            return None;
        }
        Some(Bound {
            number: (self.0 / 2) as i32 - BIAS as i32,
            closed: self.0 % 2 == 1,
        })
    }

    // The code of the sum of two bounds.
    pub fn plus(self, other: Code) -> Code
        requires { (Near 6000000 self.0) × (Near 6000000 other.0) }
        ensures { result.0 ≡ code_plus self.0 other.0 }
    {
        if self == NONE || other == NONE {
            return NONE;
        }
        Code((self.0 / 2 + other.0 / 2 - BIAS) * 2 + (self.0 % 2).min(other.0 % 2))
    }

    // The tighter of two.
    pub fn tighter(self, other: Code) -> Code
        ensures { result.0 ≡ min self.0 other.0 }
    {
        self.min(other)
    }

    // Whether the code is none's or its number is within the reach of a zone.
    pub fn is_near(self) -> bool
        ensures { Iff (result ≡ true) (Near 4000000 self.0) }
    {
        self == NONE || (2 * (BIAS - REACH)..=2 * (BIAS + REACH) + 1).contains(&self.0)
    }

    // Whether the bound of the code is in normal form.
    pub fn is_normal<T: TimeDomain>(self, time: &T) -> bool
        requires { Near 4000000 self.0 }
        ensures { Iff (result ≡ true) (T.normal time.now (decode self.0) ≡ decode self.0) }
    {
        let Some(bound) = self.bound() else {
            return true;
        };
        time.normal_form(bound).is_ok_and(|normal| normal == bound)
    }
}

// Whether each code passes the test. No early return: the loop then runs several codes at a time.
pub fn every<F: Fn(Code) -> bool>(codes: &[Code; 81], test: F) -> bool
    requires { (p : ℕ) → p < 81 → F.pre test (code_at codes.now p) }
    ensures { (result ≡ true → (p : ℕ) → p < 81 → F.post test (code_at codes.now p) true) × (result ≡ false → (p : ℕ) × (p < 81) × F.post test (code_at codes.now p) false) }
{
    let mut every = true;
    for code in codes {
        every &= test(*code);
    }
    every
}
