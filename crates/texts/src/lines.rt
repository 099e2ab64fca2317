ghost use Rattle.std.specs.Prelude.{◌≡◌};
ghost use Rattle.byte_text.specs.Parts.{place, ahead};
ghost use Rattle.texts.specs.Faults.{faulty};
ghost use Rattle.texts.specs.States.{state, seen_state, KeptBy, SameLists};
ghost use Rattle.texts.specs.Lines.{time_line, position_line, move_line, outcome_line, goal_line, stepped, torn_line, finished, settled_by, settled};

use crate::fault::TextFault;
use crate::header::Header;
use crate::line::Line;
use crate::reading::Reading;
use crate::taking::{add_to_open, sum_of_open, take_row};
use crate::words::{Letter, Phase};
use bounds::refusal::Refusal;
use byte_text::parts::Parts;

// Each line says its answer, that a refused one leaves all as it was, and that the lists stay the same lists: three facts, each of which a caller takes by itself.
impl<'t, 'r, 'a> Reading<'t, 'r, 'a> {
    // The open move, if there is one, may end: its chances add up.
    fn settle(&self) -> Result<(), TextFault<'t>>
        ensures { faulty result ≡ settled (state self.now) }
    {
        match self.phase {
            Phase::Moves => self
                .opening
                .demand(sum_of_open(&self.rows.moves) == 1000, Refusal::Chance),
            _ => Ok(()),
        }
    }

    // A line of this kind may follow: only an outcome leaves the open move open.
    fn settle_by(&self, letter: Letter) -> Result<(), TextFault<'t>>
        ensures { faulty result ≡ settled_by letter (state self.now) }
    {
        match letter {
            Letter::Outcome => Ok(()),
            _ => self.settle(),
        }
    }

    fn time_line(&mut self, line: Line<'t>, mut fields: Parts<'t>) -> Result<(), TextFault<'t>>
        ensures answer { seen_state result self.new ≡ time_line (state self.old) line.entry.number (place line.entry.whole) (ahead fields.entry) }
        ensures kept { KeptBy result (state self.new) (state self.old) }
        ensures same { SameLists self.new self.old }
    {
        let kind = line.next_field(2, &mut fields)?;
        let clocks = line.next_field(3, &mut fields)?;
        line.no_field(&mut fields)?;
        let kind = line.kind(kind.part)?;
        line.demand(self.standing().allows(Letter::Time), Refusal::Order)?;
        let clocks = clocks.count(1, 8, Refusal::Number)?;
        self.phase = Phase::Positions;
        self.time = kind.time();
        self.clocks = clocks.number();
        Ok(())
    }

    fn position_line(&mut self, line: Line<'t>, fields: Parts<'t>) -> Result<(), TextFault<'t>>
        ensures answer { seen_state result self.new ≡ position_line (state self.old) line.entry.number (place line.entry.whole) (ahead fields.entry) }
        ensures kept { KeptBy result (state self.new) (state self.old) }
        ensures same { SameLists self.new self.old }
    {
        let row = line.position(fields, self.standing())?;
        take_row(line, &mut self.rows.positions, 64, row)
    }

    fn move_line(&mut self, line: Line<'t>, fields: Parts<'t>) -> Result<(), TextFault<'t>>
        ensures answer { seen_state result self.new ≡ move_line (state self.old) line.entry.number (place line.entry.whole) (ahead fields.entry) }
        ensures kept { KeptBy result (state self.new) (state self.old) }
        ensures same { SameLists self.new self.old }
    {
        let row = line.a_move(fields, self.standing())?;
        take_row(line, &mut self.rows.moves, 256, row)?;
        self.phase = Phase::Moves;
        self.opening = line;
        Ok(())
    }

    fn outcome_line(&mut self, line: Line<'t>, fields: Parts<'t>) -> Result<(), TextFault<'t>>
        ensures answer { seen_state result self.new ≡ outcome_line (state self.old) line.entry.number (place line.entry.whole) (ahead fields.entry) }
        ensures kept { KeptBy result (state self.new) (state self.old) }
        ensures same { SameLists self.new self.old }
    {
        let row = line.outcome(fields, self.standing(), self.rows.moves.len())?;
        take_row(line, &mut self.rows.outcomes, 512, row)?;
        add_to_open(&mut self.rows.moves, row.chance);
        Ok(())
    }

    fn goal_line(&mut self, line: Line<'t>, fields: Parts<'t>) -> Result<(), TextFault<'t>>
        ensures answer { seen_state result self.new ≡ goal_line (state self.old) line.entry.number (place line.entry.whole) (ahead fields.entry) }
        ensures kept { KeptBy result (state self.new) (state self.old) }
        ensures same { SameLists self.new self.old }
    {
        let row = line.goal(fields, self.standing())?;
        take_row(line, &mut self.rows.goals, 64, row)?;
        self.phase = Phase::Goals;
        Ok(())
    }

    // One line: first the open move, then the line itself.
    pub fn read_line(&mut self, line: Line<'t>) -> Result<(), TextFault<'t>>
        ensures answer { seen_state result self.new ≡ stepped (state self.old) line.entry.number (place line.entry.whole) }
        ensures kept { KeptBy result (state self.new) (state self.old) }
        ensures same { SameLists self.new self.old }
    {
        let mut fields = line.fields();
        let first = line.next_field(1, &mut fields)?;
        let letter = Letter::from(first.part.bytes);
        self.settle_by(letter)?;
        match letter {
            Letter::Time => self.time_line(line, fields),
            Letter::Position => self.position_line(line, fields),
            Letter::Move => self.move_line(line, fields),
            Letter::Outcome => self.outcome_line(line, fields),
            Letter::Goal => self.goal_line(line, fields),
            Letter::Unknown => Err(line.fault(Refusal::Line)),
        }
    }

    // A line with no end.
    pub fn torn_line(&self, line: Line<'t>) -> Result<Header, TextFault<'t>>
        ensures { faulty result ≡ torn_line (state self.now) line.entry.number (place line.entry.whole) }
    {
        let mut fields = line.fields();
        let first = line.next_field(1, &mut fields)?;
        self.settle_by(Letter::from(first.part.bytes))?;
        let torn = line.fault(Refusal::Line);
        Err(torn)
    }

    // The end of the text, as the line after the last.
    pub fn finish(&self, end: Line<'t>) -> Result<Header, TextFault<'t>>
        ensures { faulty result ≡ finished (state self.now) end.entry.number (place end.entry.whole) }
    {
        self.settle()?;
        end.demand(self.standing().allows(Letter::Goal), Refusal::Order)?;
        Ok(Header {
            time: self.time,
            clocks: self.clocks,
        })
    }
}
