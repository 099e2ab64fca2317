ghost use Rattle.std.specs.Prelude.{◌≡◌, true};
ghost use Rattle.bounds.specs.Logic.{Iff};
ghost use Rattle.entries.specs.Lines.{line, ReadSays};
ghost use Rattle.entries.specs.Finding.{FoundSays};

use crate::clock_count::ClockCount;
use crate::entry::Entry;
use crate::reading::{Draft, read_draft};
use bounds::refusal::Refusal;
use byte_text::parts::up_to;
use zones::zone::Zone;

impl Entry {
    // The entry whose line for so many clocks the bytes are; refused by Line where they are no entry's.
    pub fn read(clocks: ClockCount, bytes: &[u8]) -> Result<Entry, Refusal>
        ensures { ReadSays clocks.count bytes.now result }
    {
        let end = up_to(bytes, b'\n');
        let draft = read_draft(&bytes[0..end]).ok_or(Refusal::Line)?;
        let entry = found(clocks, draft).ok_or(Refusal::Line)?;
        if !entry.has_line(clocks, bytes) {
            return Err(Refusal::Line);
        }
        Ok(entry)
    }

    // Whether the bytes are the entry's line.
    fn has_line(self, clocks: ClockCount, bytes: &[u8]) -> bool
        ensures { Iff (result ≡ true) (line clocks.count self ≡ bytes.now) }
    {
        self.line(clocks).is_ok_and(|line| line.as_bytes() == bytes)
    }
}

// The entry of which all this was read, if there is one.
fn found(clocks: ClockCount, draft: Draft) -> Option<Entry>
    ensures { FoundSays clocks.count draft result }
{
    let zone = Zone::of_bounds(&clocks.whole_bounds(&draft.bounds)).ok()?;
    let entry = Entry {
        position: draft.position,
        round: draft.round,
        zone,
    };
    entry.is_for(clocks).then_some(entry)
}
