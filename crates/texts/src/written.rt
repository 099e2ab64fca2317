ghost use Rattle.std.specs.Prelude.{◌≡◌};
ghost use Rattle.byte_text.specs.Parts.{place};
ghost use Rattle.texts.specs.Faults.{fault, faulty};
ghost use Rattle.texts.specs.Fields.{seen_field, number_field, clocks_field, in_field};
ghost use Rattle.texts.specs.BoxFields.{box_field};

use crate::fault::TextFault;
use crate::field::Field;
use crate::items::read_items;
use crate::spot::Spot;
use crate::standing::Standing;
use bounds::refusal::Refusal;
use byte_text::numerals::number_to;
use byte_text::parts::Part;
use zones::boxes::{ClockBox, Side};

// A field as it is written: the number of its line and its own, from 1, and its part of the text.
#[derive(Clone, Copy)]
pub struct Written<'t> {
    pub line: usize,
    pub number: usize,
    pub part: Part<'t>,
}

impl<'t> Written<'t> {
    // A fault of the field.
    pub fn fault(self, refusal: Refusal) -> TextFault<'t>
        ensures { fault result ≡ record { refusal = refusal; spot = Spot.Field self.entry.line self.entry.number; part = place self.entry.part } }
    {
        TextFault {
            refusal,
            spot: Spot::Field(self.line, self.number),
            part: self.part,
        }
    }

    // What was read from the field; a refusal is a fault of it.
    fn read<X: Copy>(self, read: Result<X, Refusal>) -> Result<X, TextFault<'t>>
        ensures { faulty result ≡ in_field self.entry.line self.entry.number (place self.entry.part) read }
    {
        // No map_err: a closure that holds parts of a text gets no proof.
        match read {
            Ok(value) => Ok(value),
            Err(why) => Err(self.fault(why)),
        }
    }

    // A number from `low` to `high`: Number where the field is no numeral, and `out` where the number lies outside.
    pub fn count(self, low: u32, high: u32, out: Refusal) -> Result<Field<'t>, TextFault<'t>>
        ensures { seen_field result ≡ number_field low high out self.entry.line self.entry.number (place self.entry.part) }
    {
        let read = number_to(self.part.bytes, u64::from(high) + 1).ok_or(Refusal::Number);
        let number = self.read(read)?;
        if u64::from(low) <= number && number <= u64::from(high) {
            Ok(Field::Number(number as usize, self.part))
        } else {
            Err(self.fault(out))
        }
    }

    // Clocks that are known, parted by commas, or `-` for none.
    pub fn clock_list(self, standing: Standing) -> Result<Field<'t>, TextFault<'t>>
        ensures { seen_field result ≡ clocks_field standing.clocks self.entry.line self.entry.number (place self.entry.part) }
    {
        let clocks = self.read(read_items([false; 8], self.part, standing))?;
        Ok(Field::Clocks(clocks, self.part))
    }

    // Bounds on clocks that are known, parted by commas, or `-` for none. Of several on one side of a clock the tightest counts.
    pub fn clock_box(self, standing: Standing) -> Result<Field<'t>, TextFault<'t>>
        ensures { seen_field result ≡ box_field standing.clocks self.entry.line self.entry.number (place self.entry.part) }
    {
        let free = [Side::default(); 8];
        let sides = self.read(read_items(free, self.part, standing))?;
        Ok(Field::Bounds(ClockBox { sides }, self.part))
    }
}
