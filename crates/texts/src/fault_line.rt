ghost use Rattle.std.specs.Prelude.{◌≡◌, IsOkAnd};
ghost use Rattle.byte_text.specs.Lines.{text, WriteSays};
ghost use Rattle.texts.specs.Faults.{fault};
ghost use Rattle.texts.specs.FaultLines.{told_line, fault_line};

use crate::fault::TextFault;
use bounds::refusal::Refusal;
use byte_text::line::Line;

impl<'t> TextFault<'t> {
    // Writes `E`, a tab, the number of the refusal, a tab, the number of the line and byte 10 at the start of the buffer, leaves the bytes after them, and answers their count.
    // The number of the line is 0 where the text as a whole is refused. A shorter buffer is refused by Buffer, and left as it was.
    pub fn write_line(&self, buffer: &mut [u8]) -> Result<usize, Refusal>
        ensures { WriteSays (fault_line (fault self.now)) buffer.old result buffer.new }
    {
        let number = self.spot.line().unwrap_or(0);
        told(self.refusal, number as u64)?.write(buffer)
    }
}

// The line that tells the refusal and the number of a line: at most 27 bytes, so there is always room.
fn told(refusal: Refusal, number: u64) -> Result<Line, Refusal>
    ensures { IsOkAnd result (λ line. text line ≡ told_line refusal number) }
{
    let mut line = Line::new();
    line.word(b"E\t")?;
    line.number(u64::from(refusal.number()))?;
    line.push(b'\t')?;
    line.number(number)?;
    line.push(b'\n')?;
    Ok(line)
}
