ghost use Rattle.std.specs.Prelude.{◌≡◌, ◌+◌, ◌<◌, ◌≤◌, ◌==◌, [], ◌∷◌, ◌++◌, length, decimal};
ghost use Rattle.std.specs.Fmt.{signed_decimal};

use bounds::refusal::Refusal;

// How many bytes a line has room for.
const ROOM: usize = 1200;

// A line of text as it is put together, of at most 1,200 bytes.
// Its bytes lie in an array with a count beside it, since a line may be copied and an `ArrayVec` may not.
#[derive(Clone, Copy)]
pub struct Line {
    bytes: [u8; ROOM],
    used: usize,
    ghost fits: { used ≤ 1200 },
}

impl Line {
    ghost use Rattle.byte_text.specs.Lines.{text, AddSays, WriteSays};

    pub fn new() -> Line
        ensures { text result ≡ [] }
    {
        Line {
            bytes: [0; ROOM],
            used: 0,
        }
    }

    // How many bytes the line has.
    pub fn len(&self) -> usize
        ensures value { result ≡ length (text self.now) }
        ensures bound { result ≤ 1200 }
    {
        self.as_bytes().len()
    }

    // Whether the line has no byte.
    pub fn is_empty(&self) -> bool
        ensures { result ≡ (length (text self.now) == 0) }
    {
        self.used == 0
    }

    // The bytes of the line.
    pub fn as_bytes(&self) -> &[u8]
        ensures { result.now ≡ text self.now }
    {
        &self.bytes[..self.used]
    }

    // Adds a byte. This, and each that follows, is refused by Buffer where the line has no room for all that is added.
    pub fn push(&mut self, byte: u8) -> Result<(), Refusal>
        ensures { AddSays (text self.old) (byte ∷ []) result (text self.new) }
    {
        if self.used == ROOM {
            return Err(Refusal::Buffer);
        }
        self.lay(byte);
        Ok(())
    }

    // Adds a number in decimal digits.
    pub fn number(&mut self, n: u64) -> Result<(), Refusal>
        ensures { AddSays (text self.old) (decimal n) result (text self.new) }
    {
        if self.len() + number_len(n) > ROOM {
            return Err(Refusal::Buffer);
        }
        self.digits(n);
        Ok(())
    }

    // Adds a number in decimal digits, with `-` before one below 0.
    pub fn signed(&mut self, z: i32) -> Result<(), Refusal>
        ensures { AddSays (text self.old) (signed_decimal z) result (text self.new) }
    {
        let n = u64::from(z.unsigned_abs());
        if z < 0 {
            if self.len() + 1 + number_len(n) > ROOM {
                return Err(Refusal::Buffer);
            }
            self.lay(b'-');
            self.digits(n);
            return Ok(());
        }
        self.number(n)
    }

    // Adds some bytes.
    pub fn word(&mut self, bytes: &[u8]) -> Result<(), Refusal>
        ensures { AddSays (text self.old) bytes.now result (text self.new) }
    {
        if bytes.len() > ROOM - self.used {
            return Err(Refusal::Buffer);
        }
        let end = self.used + bytes.len();
        self.bytes[self.used..end].copy_from_slice(bytes);
        self.used = end;
        Ok(())
    }

    // Writes the line at the start of the buffer and leaves the bytes after it; answers its length.
    // A shorter buffer is refused by Buffer, and left as it was.
    pub fn write(&self, buffer: &mut [u8]) -> Result<usize, Refusal>
        ensures { WriteSays (text self.now) buffer.old result buffer.new }
    {
        let line = self.as_bytes();
        if buffer.len() < line.len() {
            return Err(Refusal::Buffer);
        }
        buffer[..line.len()].copy_from_slice(line);
        Ok(line.len())
    }

    fn lay(&mut self, byte: u8)
        requires { length (text self.old) < 1200 }
        ensures { text self.new ≡ text self.old ++ (byte ∷ []) }
    {
        self.bytes[self.used] = byte;
        self.used += 1;
    }

    // By hand: `write!` promises nothing of the line where it fails, so the refusal did not prove through it.
    fn digits(&mut self, n: u64)
        requires { length (text self.old) + length (decimal n) ≤ 1200 }
        ensures { text self.new ≡ text self.old ++ decimal n }
    {
        if n >= 10 {
            self.digits(n / 10);
        }
        let digit = (n % 10) as u8;
        self.lay(48 + digit);
    }
}

// How many decimal digits a number has.
fn number_len(n: u64) -> usize
    ensures value { result ≡ length (decimal n) }
    ensures bound { result ≤ 20 }
{
    n.checked_ilog10().unwrap_or(0) as usize + 1
}
