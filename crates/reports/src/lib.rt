#![tactic(auto)]

ghost use Rattle.std.specs.Prelude.{◌≡◌, ◌≤◌, length};
ghost use Rattle.byte_text.specs.Lines.{WriteSays};
ghost use Rattle.reports.specs.Reports.{status_line, phase_word, ReportSays};

use bounds::refusal::Refusal;
use byte_text::line::Line;
use rounds::replies::Phase;

// The word for a phase, as bytes: a line refuses by Buffer, which an error of `fmt` would lose.
fn phase_name(phase: Phase) -> &'static [u8]
    ensures is { result.now ≡ phase_word phase }
    ensures short { length result.now ≤ 20 }
{
    match phase {
        Phase::Open => b"open",
        Phase::Closed => b"closed",
        Phase::Stopped => b"stopped",
        Phase::Unfit => b"unfit",
    }
}

// `S`, tab, the phase, tab, the finished rounds, byte 10. It is never refused.
fn status_report(phase: Phase, rounds: u64) -> Result<Line, Refusal>
    ensures { ReportSays (status_line phase rounds) result }
{
    let mut report = Line::new();
    report.word(b"S\t")?;
    report.word(phase_name(phase))?;
    report.word(b"\t")?;
    report.number(rounds)?;
    report.word(b"\n")?;
    Ok(report)
}

// Writes the line of where a Search stands, `S`, tab, the phase, tab, the finished rounds, byte 10, at the start of the buffer, and
// leaves the bytes after it; answers its length. A shorter buffer is refused by Buffer, and left as it was.
pub fn write_status(phase: Phase, rounds: u64, buffer: &mut [u8]) -> Result<usize, Refusal>
    ensures { WriteSays (status_line phase rounds) buffer.old result buffer.new }
{
    status_report(phase, rounds)?.write(buffer)
}
