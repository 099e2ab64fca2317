ghost use Rattle.std.specs.Prelude.{◌≡◌, true};
ghost use Rattle.bounds.specs.Logic.{Iff};
ghost use Rattle.bounds.specs.Sums.{bound_of};
ghost use Rattle.zones.specs.Cuts.{FromTo};

use bounds::bound::Bound;

// Whether the bound's number, if there is one, is from the low one to the high one.
pub fn is_from_to(bound: Option<Bound>, low: i32, high: i32) -> bool
    ensures { Iff (result ≡ true) (FromTo low high (bound_of bound)) }
{
    bound.is_none_or(|b| (low..=high).contains(&b.number))
}
