use crate::spot::Spot;
use bounds::refusal::Refusal;
use byte_text::parts::Part;
use std::fmt;

// Why a text is refused, and where: the spot, and the part of the text that is meant.
#[derive(Clone, Copy, PartialEq, Eq, Debug)]
pub struct TextFault<'t> {
    pub refusal: Refusal,
    pub spot: Spot,
    pub part: Part<'t>,
}

impl fmt::Display for TextFault<'_> {
    ghost use Rattle.std.specs.Prelude.{◌++◌, Some, codes};
    ghost use Rattle.bounds.specs.Refusals.{told};
    ghost use Rattle.texts.specs.Spots.{spot_text};

    ghost output = { λ f. Some (told f.refusal ++ codes " in " ++ spot_text f.spot) };

    fn fmt<W: fmt::Write>(&self, f: &mut fmt::Formatter<W>) -> fmt::Result {
        let refusal = self.refusal;
        let spot = self.spot;
        write!(f, "{refusal} in {spot}")
    }
}

impl std::error::Error for TextFault<'_> {}
