ghost use Rattle.std.specs.Prelude.{◌≡◌, ◌+◌, ◌^◌, ◌<◌, length};
ghost use Rattle.byte_text.specs.Parts.{place, ahead, tail_places};
ghost use Rattle.texts.specs.Faults.{fault, faulty, refused, field_next, no_field, demanded, fields_of};
ghost use Rattle.texts.specs.WrittenFields.{seen_part, Numbered};

use crate::fault::TextFault;
use crate::spot::Spot;
use crate::written::Written;
use bounds::refusal::Refusal;
use byte_text::parts::{Part, Parts};

// A line of a text: its number, from 1, and its bytes without the byte 10 that ends it.
#[derive(Clone, Copy)]
pub struct Line<'t> {
    pub number: usize,
    pub whole: Part<'t>,
    ghost placed: { whole.at + length whole.bytes.now < 2 ^ 64 },
}

impl<'t> Line<'t> {
    // A fault of the whole line.
    pub fn fault(self, refusal: Refusal) -> TextFault<'t>
        ensures { fault result ≡ record { refusal = refusal; spot = Spot.Line self.entry.number; part = place self.entry.whole } }
    {
        TextFault {
            refusal,
            spot: Spot::Line(self.number),
            part: self.whole,
        }
    }

    // The fields of the line, between tabs.
    pub fn fields(self) -> Parts<'t>
        ensures { ahead result ≡ fields_of (place self.entry.whole) }
    {
        Parts::new(self.whole, b'\t')
    }

    // The next field, which is the field of this number; a line that has no more is refused by Line.
    // The walk over the fields goes beside the line: within, each call would also have to say that the line stays.
    pub fn next_field(
        self,
        number: usize,
        fields: &mut Parts<'t>,
    ) -> Result<Written<'t>, TextFault<'t>>
        ensures answer { seen_part result ≡ field_next self.entry.number (place self.entry.whole) (ahead fields.old) }
        ensures rest { ahead fields.new ≡ tail_places (ahead fields.old) }
        ensures numbered { Numbered self.entry.number number result }
    {
        let part = fields.next().ok_or(self.fault(Refusal::Line))?;
        Ok(Written {
            line: self.number,
            number,
            part,
        })
    }

    // A line that has a field more is refused by Line.
    pub fn no_field(self, fields: &mut Parts<'t>) -> Result<(), TextFault<'t>>
        ensures { faulty result ≡ no_field self.entry.number (place self.entry.whole) (ahead fields.old) }
    {
        self.demand(fields.next().is_none(), Refusal::Line)
    }

    // Refuses the whole line where something that it needs does not hold.
    pub fn demand(self, holds: bool, refusal: Refusal) -> Result<(), TextFault<'t>>
        ensures { faulty result ≡ demanded holds refusal self.entry.number (place self.entry.whole) }
    {
        if holds {
            Ok(())
        } else {
            Err(self.fault(refusal))
        }
    }
}
