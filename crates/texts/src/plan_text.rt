ghost use Rattle.std.specs.Prelude.{◌≡◌};
ghost use Rattle.byte_text.specs.Parts.{parted};
ghost use Rattle.texts.specs.Faults.{faulty};
ghost use Rattle.texts.specs.PlanRows.{tables, SameSlices};
ghost use Rattle.texts.specs.States.{state};
ghost use Rattle.texts.specs.Texts.{run, read_text};

use crate::fault::TextFault;
use crate::header::Header;
use crate::line::Line;
use crate::plan_rows::PlanRows;
use crate::reader::{NextLine, Reader};
use crate::reading::Reading;
use crate::spot::Spot;
use crate::words::Phase;
use bounds::refusal::Refusal;
use bounds::time::PlanTime;
use byte_text::parts::Part;

// All lines of the text.
fn read_lines<'t>(
    text: &'t [u8],
    reading: &mut Reading<'t, '_, '_>,
) -> Result<Header, TextFault<'t>>
    ensures answer { record { answer = faulty result; rows = tables reading.new.rows.now } ≡ run (parted 10 0 text.now) (state reading.old) 0 }
    ensures lists { reading.new.rows.ghost_name ≡ reading.old.rows.ghost_name }
    ensures same { SameSlices reading.new.rows.now reading.old.rows.now }
{
    let mut reader = Reader::new(text);
    // A loop, and no while let: after the last whole line it matters which of the other two came.
    'lines: loop {
        match reader.next_line() {
            NextLine::Whole(line) => reading.read_line(line)?,
            NextLine::Torn(line) => return reading.torn_line(line),
            NextLine::Over(end) => return reading.finish(end),
        }
    }
}

// Reads a plan from its text into the lists, from the first row of each on, in one pass over the text.
// The rows of the lines that were accepted are written, and all others hold what they held; a text that is too long changes nothing.
pub fn read_plan<'t>(text: &'t [u8], rows: &mut PlanRows) -> Result<Header, TextFault<'t>>
    ensures answer { record { answer = faulty result; rows = tables rows.new } ≡ read_text text.now (tables rows.old) }
    ensures same { SameSlices rows.new rows.old }
{
    if text.len() > 16384 {
        let part = Part { bytes: text, at: 0 };
        return Err(TextFault {
            refusal: Refusal::Rows,
            spot: Spot::Text,
            part,
        });
    }
    rows.positions.clear();
    rows.moves.clear();
    rows.outcomes.clear();
    rows.goals.clear();
    let whole = Part {
        bytes: &text[0..0],
        at: 0,
    };
    let mut reading = Reading {
        phase: Phase::Begin,
        time: PlanTime::Cycle,
        clocks: 0,
        opening: Line { number: 0, whole },
        rows,
    };
    read_lines(text, &mut reading)
}
