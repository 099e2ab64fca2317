ghost use Rattle.std.specs.Prelude.{◌≡◌};
ghost use Rattle.texts.specs.Spots.{spot_line, spot_field};

use std::fmt;

// Where in a text a fault is: in the text as a whole, in a line, or in a field of a line. Lines are numbered from 1, and so are fields.
#[derive(Clone, Copy, PartialEq, Eq, Debug)]
pub enum Spot {
    Text,
    Line(usize),
    Field(usize, usize),
}

impl Spot {
    // The number of the line, if it lies in one.
    pub fn line(self) -> Option<usize>
        ensures { result ≡ spot_line self }
    {
        match self {
            Spot::Text => None,
            Spot::Line(line) | Spot::Field(line, _) => Some(line),
        }
    }

    // The number of the field, if it lies in one.
    pub fn field(self) -> Option<usize>
        ensures { result ≡ spot_field self }
    {
        match self {
            Spot::Text | Spot::Line(_) => None,
            Spot::Field(_, field) => Some(field),
        }
    }
}

impl fmt::Display for Spot {
    ghost use Rattle.std.specs.Prelude.{Some};
    ghost use Rattle.texts.specs.Spots.{spot_text};

    ghost output = { λ s. Some (spot_text s) };

    fn fmt<W: fmt::Write>(&self, f: &mut fmt::Formatter<W>) -> fmt::Result {
        match *self {
            Spot::Text => write!(f, "the text"),
            Spot::Line(line) => write!(f, "line {line}"),
            Spot::Field(line, field) => write!(f, "line {line}, field {field}"),
        }
    }
}
