#![tactic(auto)]

use distances::finder::Search;
use entries::clock_count::ClockCount;
use grammar::read_written_plan;
use grammar::table::table_over;
use plans::plan::Plan;
use plans::rows::{Goal, Move, Outcome, Position};
use reports::write_status;
use rounds::replies::Phase;
use std::io;
use stores::line_store::LineStore;
use stores::store::Store;
use texts::fault::TextFault;
use texts::plan_rows::PlanRows;

// How many bytes the store has.
const STORE_BYTES: usize = 32_768;

// No line that is printed is longer.
const LONGEST: usize = 1200;

// Reads a plan from its text, widens over it until that is refused, and prints the lines of the entries, and then the phase and the finished rounds.
// Of a text that is refused it prints how and where. Rows that were read from a text pass the row check, so these are not refused.
pub fn print_text(rt: &impl Print, text: &[u8]) -> io::Result<()> {
    let mut positions = [Position::default(); 64];
    let mut moves = [Move::default(); 256];
    let mut outcomes = [Outcome::default(); 512];
    let mut goals = [Goal::default(); 64];
    let mut rows = PlanRows::over(&mut positions, &mut moves, &mut outcomes, &mut goals);
    match read_written_plan(text, &mut rows) {
        Ok(header) => print_plan(rt, table_over(header.time, header.clocks, &rows).unwrap()),
        Err(fault) => print_fault(rt, &fault),
    }
}

// The same for any plan. Every plan has 1 to 8 clocks, so the count is not refused.
pub fn print_plan<P: Plan + Drop>(rt: &impl Print, plan: P) -> io::Result<()> {
    let clocks = ClockCount::try_from(plan.clocks()).unwrap();
    let mut bytes = [0; STORE_BYTES];
    print_over(rt, plan, &mut LineStore::new(clocks, &mut bytes))
}

// The same over any store.
pub fn print_over<P: Plan + Drop, S: Store>(
    rt: &impl Print,
    plan: P,
    store: &mut S,
) -> io::Result<()> {
    let mut finder = Search::new(plan, store);
    // A `while` would have to be proved to end.
    for _ in 0..u64::MAX {
        if finder.widen().is_err() {
            break;
        }
    }
    let mut buffer = [0; LONGEST];
    print_entries(rt, &finder, &mut buffer)?;
    print_status(rt, finder.phase(), finder.rounds(), &mut buffer)
}

// Prints the entries, one line each.
fn print_entries<P: Plan, S: Store>(
    rt: &impl Print,
    finder: &Search<P, S>,
    buffer: &mut [u8],
) -> io::Result<()> {
    // Entries are listed by number, until one is refused.
    for k in 1..usize::MAX {
        let Ok(length) = finder.list(k, buffer) else {
            break;
        };
        rt.write_all(&buffer[..length])?;
    }
    Ok(())
}

fn print_status(rt: &impl Print, phase: Phase, rounds: u64, buffer: &mut [u8]) -> io::Result<()> {
    // The buffer is as long as any line, so this is not refused.
    let Ok(length) = write_status(phase, rounds, buffer) else {
        return Ok(());
    };
    rt.write_all(&buffer[..length])
}

fn print_fault(rt: &impl Print, fault: &TextFault) -> io::Result<()> {
    let mut buffer = [0; LONGEST];
    // The buffer is as long as any line, so this is not refused.
    let Ok(length) = fault.write_line(&mut buffer) else {
        return Ok(());
    };
    rt.write_all(&buffer[..length])
}
