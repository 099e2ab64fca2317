ghost use Rattle.std.specs.Prelude.{◌≡◌, ◌≤◌, ◌==◌, length};
ghost use Rattle.std.specs.List.{position};
ghost use Rattle.std.specs.Iterator.{item_count};
ghost use Rattle.byte_text.specs.Parts.{up_to, within, parted, ahead, Gives};

use crate::parts::{Part, Parts};

// How many bytes stand before the first `mark`: all of them, if there is none.
pub fn up_to(bytes: &[u8], mark: u8) -> usize
    ensures value { result ≡ up_to mark bytes.now }
    ensures bound { result ≤ length bytes.now }
{
    first(bytes, mark).unwrap_or(bytes.len())
}

// Where the first `mark` stands, if there is one.
// On its own: written out in `up_to`, the answer of `position` was not found by a search for its proof.
fn first(bytes: &[u8], mark: u8) -> Option<usize>
    ensures { result ≡ position (λ b. b == mark) bytes.now }
{
    bytes.iter().position(|b| *b == mark)
}

impl<'a> Parts<'a> {
    // The parts of `whole`, one more than it has bytes `mark`.
    // A place so late that the bytes after it could not be numbered is moved to the last at which they can.
    pub fn new(whole: Part<'a>, mark: u8) -> Parts<'a>
        ensures { ahead result ≡ parted mark (within whole.entry.at whole.entry.bytes.now) whole.entry.bytes.now }
    {
        let Part { bytes, at } = whole;
        let at = at.min(usize::MAX - bytes.len());
        Parts {
            rest: Some(Part { bytes, at }),
            mark,
        }
    }
}

impl<'a> Iterator for Parts<'a> {
    type Item = Part<'a>;

    ghost next_gives = { Gives };

    ghost remaining = { item_count ahead };

    // The next part, or none where all were given.
    fn next(&mut self) -> Option<Part<'a>> {
        let Part { bytes, at } = self.rest?;
        let n = up_to(bytes, self.mark);
        self.rest = if n < bytes.len() {
            let e = n + 1;
            Some(Part {
                bytes: &bytes[e..],
                at: at + e,
            })
        } else {
            None
        };
        Some(Part {
            bytes: &bytes[..n],
            at,
        })
    }
}
