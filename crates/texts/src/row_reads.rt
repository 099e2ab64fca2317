ghost use Rattle.std.specs.Prelude.{◌≡◌};
ghost use Rattle.byte_text.specs.Parts.{place, ahead};
ghost use Rattle.texts.specs.Faults.{faulty};
ghost use Rattle.texts.specs.RowReads.{position_read, move_read, outcome_read, goal_read};
ghost use Rattle.texts.specs.Words.{stands_at};

use crate::fault::TextFault;
use crate::line::Line;
use crate::standing::Standing;
use crate::words::Letter;
use bounds::refusal::Refusal;
use byte_text::parts::Parts;
use plans::rows::{Goal, Move, Outcome, Position};

// The rows that lines write, from their fields after the letter: refused by Line for the count of fields, then by Order where such a line may not stand,
// and then field by field from the left.
// At most 64 positions are known, so their count fits the casts.
impl<'t> Line<'t> {
    pub fn position(
        self,
        mut fields: Parts<'t>,
        standing: Standing,
    ) -> Result<Position, TextFault<'t>>
        ensures { faulty result ≡ position_read (stands_at Letter.Position standing.phase standing.positions) standing.clocks self.entry.number (place self.entry.whole) (ahead fields.entry) }
    {
        let invariant = self.next_field(2, &mut fields)?;
        self.no_field(&mut fields)?;
        self.demand(standing.allows(Letter::Position), Refusal::Order)?;
        let invariant = invariant.clock_box(standing)?;
        Ok(Position {
            invariant: invariant.clock_box(),
        })
    }

    // A move from one of the positions that are known.
    pub fn a_move(self, mut fields: Parts<'t>, standing: Standing) -> Result<Move, TextFault<'t>>
        ensures { faulty result ≡ move_read (stands_at Letter.Move standing.phase standing.positions) standing.positions standing.clocks self.entry.number (place self.entry.whole) (ahead fields.entry) }
    {
        let source = self.next_field(2, &mut fields)?;
        let guard = self.next_field(3, &mut fields)?;
        self.no_field(&mut fields)?;
        self.demand(standing.allows(Letter::Move), Refusal::Order)?;
        let source = source.count(1, standing.positions as u32, Refusal::Name)?;
        let guard = guard.clock_box(standing)?;
        Ok(Move {
            source: source.number(),
            guard: guard.clock_box(),
            sum: 0,
        })
    }

    // An outcome of the move `cause`.
    pub fn outcome(
        self,
        mut fields: Parts<'t>,
        standing: Standing,
        cause: usize,
    ) -> Result<Outcome, TextFault<'t>>
        ensures { faulty result ≡ outcome_read (stands_at Letter.Outcome standing.phase standing.positions) cause standing.positions standing.clocks self.entry.number (place self.entry.whole) (ahead fields.entry) }
    {
        let chance = self.next_field(2, &mut fields)?;
        let target = self.next_field(3, &mut fields)?;
        let resets = self.next_field(4, &mut fields)?;
        self.no_field(&mut fields)?;
        self.demand(standing.allows(Letter::Outcome), Refusal::Order)?;
        let chance = chance.count(0, 1000, Refusal::Number)?;
        let target = target.count(1, standing.positions as u32, Refusal::Name)?;
        let resets = resets.clock_list(standing)?;
        Ok(Outcome {
            cause,
            chance: chance.number() as u32,
            target: target.number(),
            resets: resets.clocks(),
        })
    }

    pub fn goal(self, mut fields: Parts<'t>, standing: Standing) -> Result<Goal, TextFault<'t>>
        ensures { faulty result ≡ goal_read (stands_at Letter.Goal standing.phase standing.positions) standing.positions standing.clocks self.entry.number (place self.entry.whole) (ahead fields.entry) }
    {
        let position = self.next_field(2, &mut fields)?;
        let area = self.next_field(3, &mut fields)?;
        self.no_field(&mut fields)?;
        self.demand(standing.allows(Letter::Goal), Refusal::Order)?;
        let position = position.count(1, standing.positions as u32, Refusal::Name)?;
        let area = area.clock_box(standing)?;
        Ok(Goal {
            position: position.number(),
            area: area.clock_box(),
        })
    }
}
