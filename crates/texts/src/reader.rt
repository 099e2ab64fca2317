ghost use Rattle.std.specs.Prelude.{◌≤◌, length};

use crate::line::Line;

mod walk;

// A reader of a text, line by line: how many lines it has given, and where the next begins.
// It is asked for as a struct with methods over the lent text, and gives a line with no end as well as the end, so it is no Iterator.
#[derive(Drop)]
pub struct Reader<'t> {
    text: &'t [u8],
    line: usize,
    at: usize,
    ghost within: { at ≤ length text.now },
    ghost counted: { line ≤ at },
}

// What a reader comes to: a line that ends with byte 10, one that does not, or the end of the text, as its empty rest.
#[derive(Clone, Copy)]
pub enum NextLine<'t> {
    Whole(Line<'t>),
    Torn(Line<'t>),
    Over(Line<'t>),
}
