#![tactic(auto)]

mod compare;
mod matrix;
mod plain;
mod plain_rounds;
mod random;
mod text;
mod upper;
mod worked;

use compare::compare;
use random::Numbers;
use worked::{compare_protocol, compare_small_plan};

// Plays plans back by two zone libraries that share no code, and prints that they agree, entry by entry. A difference ends it with an error.
fn main(rt: HostRuntime) -> anyhow::Result<()> {
    let entries = compare_small_plan(rt.alloc())?;
    println!(rt; "small plan: {entries} entries agree")?;
    let entries = compare_protocol(rt.alloc())?;
    println!(rt; "communication protocol: {entries} entries agree")?;
    let mut numbers = Numbers::new(20_261_117);
    let mut total: usize = 0;
    for _ in 0..100 {
        let plan = numbers.plan();
        let entries = compare(rt.alloc(), &plan.plain())?;
        total = total.saturating_add(entries);
    }
    println!(rt; "100 random plans: {total} entries agree")?;
    Ok(())
}
