ghost use Rattle.std.specs.Prelude.{◌≡◌, ◌+◌, ◌≤◌, length};
ghost use Rattle.byte_text.specs.Lines.{written};
ghost use Rattle.entries.specs.Lines.{line};
ghost use Rattle.stores.specs.Puts.{PutSays};
ghost use Rattle.stores.specs.Rows.{left};
ghost use Rattle.stores.specs.Texts.{BytesSay, text_of};

use crate::line_store::LineStore;
use bounds::refusal::Refusal;
use entries::entry::Entry;

impl<'a> LineStore<'a> {
    // Puts an entry, and says so of the bytes: its line is written behind those used, and no other byte changes.
    pub fn keep(&mut self, entry: Entry) -> Result<(), Refusal>
        ensures says { PutSays self.old.clocks.count (length (line self.old.clocks.count entry)) entry (text_of self.old) (left (length self.old.bytes.now) self.old.used) result (text_of self.new) (left (length self.new.bytes.now) self.new.used) }
        ensures bytes { BytesSay self.old.clocks.count entry self.old.bytes.now self.old.used self.old.count result self.new.bytes.now self.new.used self.new.count }
        ensures clocks { self.new.clocks ≡ self.old.clocks }
        ensures same { self.new.bytes.ghost_name ≡ self.old.bytes.ghost_name }
    {
        if !entry.is_for(self.clocks) {
            return Err(Refusal::Name);
        }
        let text = entry.line(self.clocks)?;
        let need = text.len();
        if self.room() < need {
            return Err(Refusal::Full);
        }
        let end = self.used + need;
        write_at(self.bytes, self.used, text.as_bytes());
        self.used = end;
        self.count += 1;
        Ok(())
    }

    // How many bytes are left.
    fn room(&self) -> usize
        ensures { result ≡ left (length self.now.bytes.now) self.now.used }
    {
        self.bytes
            .len()
            .min(1_000_000_000)
            .saturating_sub(self.used)
    }
}

// Writes a text over the bytes from `at` on, and leaves the others as they are.
fn write_at(bytes: &mut [u8], at: usize, text: &[u8])
    requires { at + length text.now ≤ length bytes.old }
    ensures { bytes.new ≡ written bytes.old at text.now }
{
    bytes[at..at + text.len()].copy_from_slice(text);
}
