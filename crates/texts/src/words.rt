ghost use Rattle.std.specs.Prelude.{◌≡◌};
ghost use Rattle.byte_text.specs.Parts.{place};
ghost use Rattle.texts.specs.Fields.{shown, seen_field};
ghost use Rattle.texts.specs.Words.{letter_of, kind_field, time_in, number_in, box_in, clocks_in};

use crate::fault::TextFault;
use crate::field::Field;
use crate::line::Line;
use bounds::refusal::Refusal;
use bounds::time::PlanTime;
use byte_text::parts::Part;
use zones::boxes::ClockBox;

// The kinds of lines, by their first field. Unknown is a kind too, since a line of no other kind closes the open move before it is refused.
#[derive(Clone, Copy, PartialEq, Eq, Debug)]
pub enum Letter {
    Time,
    Position,
    Move,
    Outcome,
    Goal,
    Unknown,
}

// Where in a text the reader is: before the line `T`, among the positions, among the moves, among the goals.
#[derive(Clone, Copy, PartialEq, Eq, Debug)]
pub enum Phase {
    Begin,
    Positions,
    Moves,
    Goals,
}

impl From<&[u8]> for Letter {
    ghost from_gives = { λ bytes letter. letter ≡ letter_of bytes.now };

    fn from(bytes: &[u8]) -> Letter {
        match bytes {
            b"T" => Letter::Time,
            b"P" => Letter::Position,
            b"M" => Letter::Move,
            b"O" => Letter::Outcome,
            b"G" => Letter::Goal,
            _ => Letter::Unknown,
        }
    }
}

impl<'t> Line<'t> {
    // The word for a kind of time; any other is refused by Line.
    pub fn kind(self, part: Part<'t>) -> Result<Field<'t>, TextFault<'t>>
        ensures { seen_field result ≡ kind_field self.entry.number (place self.entry.whole) (place part.entry) }
    {
        match part.bytes {
            b"hand" | b"cycle" => Ok(Field::Word(part)),
            _ => Err(self.fault(Refusal::Line)),
        }
    }
}

// What a field writes down. The enum of fields is asked for; one of another sort writes down nothing, which no caller meets, since each takes a field that its own reader made.
impl<'t> Field<'t> {
    pub fn time(self) -> PlanTime
        ensures { result ≡ time_in (shown self.entry) }
    {
        match self {
            Field::Word(Part { bytes: b"hand", .. }) => PlanTime::Hand,
            _ => PlanTime::Cycle,
        }
    }

    pub fn number(self) -> usize
        ensures { result ≡ number_in (shown self.entry) }
    {
        match self {
            Field::Number(v, _) => v,
            _ => 0,
        }
    }

    pub fn clock_box(self) -> ClockBox
        ensures { result ≡ box_in (shown self.entry) }
    {
        match self {
            Field::Bounds(b, _) => b,
            _ => ClockBox::default(),
        }
    }

    pub fn clocks(self) -> [bool; 8]
        ensures { result ≡ clocks_in (shown self.entry) }
    {
        match self {
            Field::Clocks(clocks, _) => clocks,
            _ => [false; 8],
        }
    }
}
