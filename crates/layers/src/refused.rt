ghost use Rattle.std.specs.Prelude.{Some};
ghost use Rattle.bounds.specs.Refusals.{told};

use bounds::refusal::Refusal;
use plans::plan::Plan;
use std::error::Error;
use std::fmt;

// A layer that could not be laid: why, and the plan that it was to lie over, handed back as it was.
#[derive(Drop)]
pub struct NotLaid<P: Plan> {
    pub refusal: Refusal,
    pub below: P,
}

// Both print the refusal alone, since a plan need not print itself.
impl<P: Plan> fmt::Display for NotLaid<P> {
    ghost output = { λ e. Some (told e.refusal) };

    fn fmt<W: fmt::Write>(&self, f: &mut fmt::Formatter<W>) -> fmt::Result {
        self.refusal.fmt(f)
    }
}

impl<P: Plan> fmt::Debug for NotLaid<P> {
    fn fmt<W: fmt::Write>(&self, f: &mut fmt::Formatter<W>) -> fmt::Result {
        let refusal = self.refusal;
        write!(f, "NotLaid({refusal:?})")
    }
}

impl<P: Plan + Drop> Error for NotLaid<P> {}
