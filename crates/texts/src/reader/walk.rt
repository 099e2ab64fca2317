ghost use Rattle.std.specs.Prelude.{◌≡◌, ◌+◌};
ghost use Rattle.texts.specs.Readers.{seen_next, next_of, lines_ahead, rest_of, counted};

use crate::line::Line;
use crate::reader::{NextLine, Reader};
use byte_text::parts::{Part, up_to};

impl<'t> Reader<'t> {
    pub fn new(text: &'t [u8]) -> Reader<'t>
        ensures text { result.text.now ≡ text.now }
        ensures line { result.line ≡ 0 }
        ensures at { result.at ≡ 0 }
    {
        Reader {
            text,
            line: 0,
            at: 0,
        }
    }

    // The next line; a reader that comes to a torn line or to the end stays there.
    pub fn next_line(&mut self) -> NextLine<'t>
        ensures answer { seen_next result ≡ next_of (self.old.line + 1) (lines_ahead self.old) }
        ensures rest { lines_ahead self.new ≡ rest_of (lines_ahead self.old) }
        ensures count { self.new.line ≡ counted result self.old.line }
        ensures text { self.new.text ≡ self.old.text }
    {
        let text = self.text;
        let at = self.at;
        let number = self.line + 1;
        let rest = &text[at..];
        let n = up_to(rest, b'\n');
        if n < rest.len() {
            self.line = number;
            self.at = at + n + 1;
            let bytes = &rest[..n];
            return NextLine::Whole(Line {
                number,
                whole: Part { bytes, at },
            });
        }
        let line = Line {
            number,
            whole: Part { bytes: rest, at },
        };
        if rest.is_empty() {
            NextLine::Over(line)
        } else {
            NextLine::Torn(line)
        }
    }
}
