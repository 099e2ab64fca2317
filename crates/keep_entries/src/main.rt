#![tactic(auto)]

use bounds::bound::Bound;
use bounds::refusal::Refusal;
use bounds::time::HandTime;
use byte_text::line::Line;
use entries::clock_count::ClockCount;
use entries::entry::Entry;
use std::io;
use stores::line_store::LineStore;
use stores::row_store::RowStore;
use stores::store::Store;
use zones::zone::Zone;

// Fills a line store of 33 bytes to its last byte, and a row store of two rows, with the same entries, and lists what each holds.
// The line store is lent all but the first two bytes and the last five. All 40 are printed after its list, and the dots have to stay.
fn main(rt: HostRuntime) -> anyhow::Result<()> {
    let clocks = ClockCount::try_from(1)?;
    let mut bytes = [b'.'; 40];
    try_store(&rt, &mut LineStore::new(clocks, &mut bytes[2..35]))?;
    rt.write_all(&bytes)?;
    rt.write_all(b"\n")?;
    let mut rows = [all(); 2];
    try_store(&rt, &mut RowStore::new(clocks, &mut rows))?;
    Ok(())
}

// An entry that asks nothing.
fn all() -> Entry {
    Entry {
        position: 2,
        round: 0,
        zone: Zone::all(),
    }
}

// An entry in which a clock reads at most 4.
fn low(clock: usize) -> Result<Entry, Refusal> {
    let mut zone = Zone::all();
    zone.cut(&HandTime, clock, 0, Some(Bound::at_most(4)))?;
    Ok(Entry {
        position: 1,
        round: 1,
        zone,
    })
}

// Fills the store while it is lent, and lists what it holds then.
fn try_store<S: Store>(rt: &impl Print, store: &mut S) -> anyhow::Result<()> {
    fill(rt, &mut *store)?;
    // Entries are read by number, and those before the first and after the last are refused.
    for k in 0..4 {
        match line_of(store, k) {
            Ok(line) => rt.write_all(line.as_bytes())?,
            Err(why) => refused(rt, why)?,
        }
    }
    Ok(())
}

// Puts an entry that speaks of a clock too many, two that fit, and one too many.
fn fill<S: Store + Drop>(rt: &impl Print, mut store: S) -> anyhow::Result<()> {
    for entry in [low(2)?, all(), low(1)?, all()] {
        match store.put(entry) {
            Ok(()) => println!(rt; "put")?,
            Err(why) => refused(rt, why)?,
        }
    }
    Ok(())
}

// The line of entry k.
fn line_of<S: Store>(store: &S, k: usize) -> Result<Line, Refusal> {
    store.read(k)?.line(store.clocks())
}

fn refused(rt: &impl Print, why: Refusal) -> io::Result<()> {
    println!(rt; "refused by {}", why.number())
}
