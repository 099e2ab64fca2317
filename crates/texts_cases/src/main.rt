#![tactic(auto)]

ghost use Rattle.std.specs.Prelude.{◌+◌, ◌<◌};

use bounds::bound::Bound;
use bounds::time::PlanTime;
use grammar::read_written_plan;
use plans::rows::{Goal, Move, Outcome, Position};
use std::io;
use texts::plan_rows::PlanRows;

// Reads one plan text from each line of standard input, in which `|` stands for a tab and `/` for the end of a line, and prints what came of it:
// the kind of time, the clock count and the four counts, or the line `E`, number, line. A case that begins with `~` gets few rows: two of each list.
fn main(rt: HostRuntime) -> anyhow::Result<()> {
    for line in rt.lines(rt.alloc()) {
        let line = line?;
        let bytes = line.as_bytes();
        let text: Vec<u8> = bytes
            .iter()
            .filter(|b| **b != b'~')
            .map(|b| meant(*b))
            .collect(rt.alloc())?;
        if bytes.contains(&b'~') {
            answer_over::<2, 2, 2, 2>(&rt, text.as_slice())?;
        } else {
            answer_over::<70, 260, 520, 70>(&rt, text.as_slice())?;
        }
    }
    Ok(())
}

// The byte that stands in the text for one of the case.
fn meant(b: u8) -> u8 {
    match b {
        b'|' => b'\t',
        b'/' => b'\n',
        _ => b,
    }
}

// Reads the text into so many positions, moves, outcomes and goals; few enough for their bytes to be counted.
fn answer_over<const P: usize, const M: usize, const O: usize, const G: usize>(
    rt: &impl Print,
    text: &[u8],
) -> io::Result<()>
    requires { P + M + O + G < 1000 }
{
    let mut positions = [Position::default(); P];
    let mut moves = [Move::default(); M];
    let mut outcomes = [Outcome::default(); O];
    let mut goals = [Goal::default(); G];
    let mut rows = PlanRows::over(&mut positions, &mut moves, &mut outcomes, &mut goals);
    answer(rt, text, &mut rows)
}

fn answer(rt: &impl Print, text: &[u8], rows: &mut PlanRows) -> io::Result<()> {
    match read_written_plan(text, rows) {
        Ok(header) => {
            // Only here is a kind of time printed, so it has no `Display`.
            let kind = match header.time {
                PlanTime::Cycle => "cycle",
                PlanTime::Hand => "hand",
            };
            println!(rt;
                "{kind} {}: {} {} {} {}",
                header.clocks,
                rows.positions.len(),
                rows.moves.len(),
                rows.outcomes.len(),
                rows.goals.len()
            )?;
            tell(rt, rows)
        }
        Err(fault) => {
            let number = fault.refusal.number();
            // A fault of no line, or of no field, is printed with 0.
            let line = fault.spot.line().unwrap_or(0);
            let field = fault.spot.field().unwrap_or(0);
            let at = fault.part.at;
            let long = fault.part.bytes.len();
            println!(rt; "E\t{number}\t{line} (field {field}, {long} bytes at {at})")
        }
    }
}

// The bounds of the first position, and the resets of the first outcome.
fn tell(rt: &impl Print, rows: &PlanRows) -> io::Result<()> {
    if let Ok(position) = rows.positions.get(1) {
        for (i, side) in position.invariant.sides.iter().enumerate() {
            tell_bound(rt, i + 1, ">", side.lower)?;
            tell_bound(rt, i + 1, "<", side.upper)?;
        }
    }
    if let Ok(outcome) = rows.outcomes.get(1) {
        for (i, reset) in outcome.resets.iter().enumerate() {
            if *reset {
                println!(rt; "  resets {}", i + 1)?;
            }
        }
    }
    Ok(())
}

fn tell_bound(rt: &impl Print, clock: usize, sign: &str, bound: Option<Bound>) -> io::Result<()> {
    let Some(Bound { number, closed }) = bound else {
        return Ok(());
    };
    let equal = if closed { "=" } else { "" };
    println!(rt; "  {clock}{sign}{equal}{number}")
}
