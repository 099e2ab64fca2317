use crate::plain_rounds::{Held, PlainPlan};
use crate::text::HeldLine;
use anyhow::{anyhow, ensure};
use distances::finder::Search;
use entries::clock_count::ClockCount;
use entries::entry::Entry;
use plans::plan::Plan;
use plans::table::TablePlan;
use std::alloc::Global;
use stores::row_store::RowStore;
use stores::store::Store;
use zones::zone::Zone;

// How many rounds are compared, unless the last one put nothing before.
const ROUNDS: u64 = 8;

// How many entries there is room for.
const ROOM: usize = 400;

// No line of an entry is longer.
const LONGEST: usize = 1200;

// Plays the plan back by both libraries, and answers how many entries they have; they differ in none.
pub fn compare(heap: Global, plan: &PlainPlan) -> anyhow::Result<usize> {
    let held = plan.play(heap, ROUNDS)?;
    let clocks = ClockCount::try_from(plan.clocks)?;
    let mut rows = [Entry {
        position: 1,
        round: 0,
        zone: Zone::all(),
    }; ROOM];
    let table = TablePlan::new(plan.time, plan.clocks, plan.rows)?;
    compare_over(
        heap,
        table,
        &mut RowStore::new(clocks, &mut rows),
        held.as_slice(),
    )
}

// Compares what is held with the entries that a search over the plan and the store has.
fn compare_over<P: Plan + Drop, S: Store>(
    heap: Global,
    plan: P,
    store: &mut S,
    held: &[Held],
) -> anyhow::Result<usize> {
    let clocks = store.clocks();
    let mut finder = Search::new(plan, store);
    for _ in 0..ROUNDS {
        if finder.widen().is_err() {
            break;
        }
    }
    let mut buffer = [0; LONGEST];
    for (k, one) in held.iter().enumerate() {
        let line = HeldLine {
            held: one,
            clocks: clocks.get(),
        }
        .to_string(heap)?;
        let length = finder
            .list(k + 1, &mut buffer)
            .map_err(|_| anyhow!("the second library has more entries"))?;
        ensure!(
            buffer.get(..length) == Some(line.as_bytes()),
            "an entry differs"
        );
    }
    ensure!(
        finder.list(held.len() + 1, &mut buffer).is_err(),
        "the second library has fewer entries"
    );
    Ok(held.len())
}
