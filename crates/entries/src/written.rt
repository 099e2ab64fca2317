ghost use Rattle.std.specs.Prelude.{◌≡◌};
ghost use Rattle.bounds.specs.Sums.{bound_of};
ghost use Rattle.zones.specs.Codes.{at};
ghost use Rattle.byte_text.specs.Lines.{text, WriteSays};
ghost use Rattle.entries.specs.Lines.{seen, item, items, commas, line, LineSays};
ghost use Rattle.entries.specs.Adding.{AddedSays};

use crate::clock_count::ClockCount;
use crate::entry::Entry;
use crate::place::Place;
use crate::places::bound_at;
use bounds::bound::Bound;
use bounds::refusal::Refusal;
use byte_text::line::Line;
use zones::zone::Zone;

// Adds `i-j<c` or `i-j<=c` for the place, which is (i, j).
fn add_bound(line: &mut Line, place: Place, bound: Bound) -> Result<(), Refusal>
    ensures { AddedSays (text line.old) (item place.number bound.closed bound.number) result (text line.new) }
{
    let i = b'0' + place.row() as u8;
    let j = b'0' + place.column() as u8;
    line.word(&[i, b'-', j, b'<'])?;
    line.word(if bound.closed { b"=" } else { b"" })?;
    line.signed(bound.number)
}

// Adds the bounds of the zone among the clocks up to the count, row by row, parted by commas.
fn add_bounds(line: &mut Line, zone: &Zone, clocks: ClockCount) -> Result<(), Refusal>
    ensures { AddedSays (text line.old) (commas (items clocks.count (at zone.now.codes) 81)) result (text line.new) }
{
    let mut separator: &[u8] = b"";
    // By number, since a place is made of it.
    for p in 0..81 {
        let place = Place::new(p);
        if let Some(bound) = seen_bound(zone, clocks, place) {
            line.word(separator)?;
            add_bound(line, place, bound)?;
            separator = b",";
        }
    }
    Ok(())
}

// The bound at a place, if it is written.
fn seen_bound(zone: &Zone, clocks: ClockCount, place: Place) -> Option<Bound>
    ensures { bound_of result ≡ seen clocks.count (at zone.now.codes) place.number }
{
    let i = place.row();
    let j = place.column();
    if i > clocks.get() || j > clocks.get() || i == j {
        return None;
    }
    bound_at(zone, place)
}

impl Entry {
    // The entry's line for so many clocks. It is never refused.
    pub fn line(self, clocks: ClockCount) -> Result<Line, Refusal>
        ensures { LineSays (line clocks.count self) result }
    {
        let mut line = Line::new();
        line.word(b"Z\t")?;
        line.number(self.position as u64)?;
        line.word(b"\t")?;
        line.number(self.round)?;
        line.word(b"\t")?;
        add_bounds(&mut line, &self.zone, clocks)?;
        line.word(b"\n")?;
        Ok(line)
    }

    // Writes the entry's line at the start of the buffer and leaves the bytes after it; answers its length.
    // A shorter buffer is refused by Buffer, and left as it was.
    pub fn write(self, clocks: ClockCount, buffer: &mut [u8]) -> Result<usize, Refusal>
        ensures { WriteSays (line clocks.count self) buffer.old result buffer.new }
    {
        self.line(clocks)?.write(buffer)
    }
}
