ghost use Rattle.std.specs.Prelude.{length};
ghost use Rattle.entries.specs.Lines.{line};
ghost use Rattle.entries.proofs.Items.{line_some};
ghost use Rattle.stores.specs.Rows.{left, left_bounded};
ghost use Rattle.stores.specs.Texts.{NthSays, text_of};

use crate::line_store::LineStore;
use crate::store::Store;
use bounds::refusal::Refusal;
use entries::clock_count::ClockCount;
use entries::entry::Entry;

// Line i of the bytes, from 0, with the byte that ends it.
fn nth_line(bytes: &[u8], i: usize) -> Option<&[u8]>
    ensures { NthSays bytes.now i result }
{
    bytes.split_inclusive(|b| *b == b'\n').nth(i)
}

impl<'a> Store for LineStore<'a> {
    ghost dimension = { λ s. s.clocks.count };

    ghost counted = { λ s. record { least = s.clocks.least; most = s.clocks.most } };

    ghost entries = { λ s. text_of s };

    ghost room = { λ s. left (length s.bytes.now) s.used };

    ghost bounded = { λ s. left_bounded (length s.bytes.now) s.used };

    ghost need = { λ n e. length (line n e) };

    ghost needs = { line_some };

    fn put(&mut self, entry: Entry) -> Result<(), Refusal> {
        self.keep(entry)
    }

    fn clocks(&self) -> ClockCount {
        self.clocks
    }

    fn count(&self) -> usize {
        self.count
    }

    fn read(&self, k: usize) -> Result<Entry, Refusal> {
        let i = k.checked_sub(1).ok_or(Refusal::Entry)?;
        if i >= self.count {
            return Err(Refusal::Entry);
        }
        let line = nth_line(&self.bytes[..self.used], i).ok_or(Refusal::Entry)?;
        Entry::read(self.clocks, line).map_err(|_| Refusal::Entry)
    }
}
