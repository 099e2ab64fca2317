ghost use Rattle.std.specs.Prelude.{◌≡◌};
ghost use Rattle.bounds.specs.Tighter.{below, above, lowest, highest, Tightest};

use crate::bound::Bound;

// Lower and upper bounds stand in two orders, so neither is derived.
impl Bound {
    // Of two upper bounds, whether this one is the tighter.
    pub fn is_below(self, other: Bound) -> bool
        ensures { result ≡ below self other }
    {
        (self.number, self.closed) < (other.number, other.closed)
    }

    // Of two lower bounds, whether this one is the tighter.
    pub fn is_above(self, other: Bound) -> bool
        ensures { result ≡ above self other }
    {
        (other.number, self.closed) < (self.number, other.closed)
    }
}

// The tighter of two upper bounds, of which each may be none.
pub fn lowest(a: Option<Bound>, b: Option<Bound>) -> Option<Bound>
    ensures { result ≡ lowest a b }
{
    tightest(a, b, Bound::is_below)
}

// The tighter of two lower bounds, of which each may be none.
pub fn highest(a: Option<Bound>, b: Option<Bound>) -> Option<Bound>
    ensures { result ≡ highest a b }
{
    tightest(a, b, Bound::is_above)
}

// The tighter of two bounds on one side, of which each may be none.
fn tightest<F: Fn(Bound, Bound) -> bool>(
    a: Option<Bound>,
    b: Option<Bound>,
    is_tighter: F,
) -> Option<Bound>
    requires { F.IsAlwaysCallable is_tighter }
    ensures { Tightest (λ x y q. F.post is_tighter x y q) a b result }
{
    let (Some(x), Some(y)) = (a, b) else {
        return a.or(b);
    };
    if is_tighter(x, y) { a } else { b }
}
