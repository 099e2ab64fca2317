#![tactic(auto)]

mod shown;

use bounds::bound::Bound;
use bounds::refusal::Refusal;
use bounds::time::PlanTime;
use layers::deadline::Deadline;
use plans::lent_rows::Rows;
use plans::plan::Plan;
use plans::rows::{Goal, Move, Outcome, Position};
use plans::table::TablePlan;
use shown::Shown;
use zones::boxes::{ClockBox, Side};
use zones::zone::Zone;

// A plan of one clock: position 1 may be kept while the clock reads at most 4, and its move may start once it reads at least 2.
// In 950 of 1000 cases it leads to position 2, where the goal is, and else it starts anew. A deadline of 6 ticks is laid over it.
fn main(rt: HostRuntime) -> anyhow::Result<()> {
    let kept = Position {
        invariant: on_first(Side {
            lower: None,
            upper: Some(Bound::at_most(4)),
        }),
    };
    let step = Move {
        source: 1,
        guard: on_first(Side {
            lower: Some(Bound::at_most(2)),
            upper: None,
        }),
        sum: 0,
    };
    let onward = Outcome {
        cause: 1,
        chance: 950,
        target: 2,
        resets: [false; 8],
    };
    let again = Outcome {
        cause: 1,
        chance: 50,
        target: 1,
        resets: [true, false, false, false, false, false, false, false],
    };
    let goal = Goal {
        position: 2,
        area: ClockBox::default(),
    };
    let rows = Rows {
        positions: &[kept, Position::default()],
        moves: &[step],
        outcomes: &[onward, again],
        goals: &[goal],
    };
    under_deadline(&rt, TablePlan::new(PlanTime::Hand, 1, rows)?)
}

// A box that asks something of clock 1 alone.
fn on_first(side: Side) -> ClockBox {
    let mut area = ClockBox::default();
    area.sides[0] = side;
    area
}

fn under_deadline<P: Plan + Drop>(rt: &impl Print, plan: P) -> anyhow::Result<()> {
    let timed = Deadline::new(plan, 6)?;
    play_back(rt, &timed)
}

// Prints what the plan answers, and then the zones on the way back over its first outcome, one line a zone.
fn play_back<P: Plan>(rt: &impl Print, plan: &P) -> anyhow::Result<()> {
    let clocks = plan.clocks();
    println!(rt;
        "{clocks} clocks, {} positions, {} moves, {} outcomes, {} goals",
        plan.positions(),
        plan.moves(),
        plan.outcomes(),
        plan.goals()
    )?;
    for zone in &cross_back(plan)? {
        println!(rt; "{}", Shown { zone, clocks })?;
    }
    Ok(())
}

// The states from which the first goal is reached by a wait, and those from which the first outcome leads there, before and after a wait.
fn cross_back<P: Plan>(plan: &P) -> Result<[Zone; 3], Refusal> {
    let time = plan.time();
    let goal = plan.goal(1)?;
    let outcome = plan.outcome(1)?;
    let step = plan.move_at(outcome.cause)?;
    let arrival = plan.position(goal.position)?;
    let departure = plan.position(step.source)?;
    // Where a cut or an undo leaves no state, the zone stays as it was.
    let mut zone = Zone::all();
    zone.cut_box(&time, &arrival.invariant)?;
    zone.cut_box(&time, &goal.area)?;
    zone.back(&time)?;
    zone.cut_box(&time, &arrival.invariant)?;
    let reached = zone;
    zone.undo(&time, &[])?;
    zone.cut_box(&time, &step.guard)?;
    zone.cut_box(&time, &departure.invariant)?;
    let crossed = zone;
    zone.back(&time)?;
    zone.cut_box(&time, &departure.invariant)?;
    Ok([reached, crossed, zone])
}
