use byte_text::parts::Part;
use zones::boxes::ClockBox;

// A field that was read: what it writes down, and the part of the text that does. It is asked for as an enum of such tokens, each with its part.
#[derive(Clone, Copy)]
pub enum Field<'t> {
    Word(Part<'t>),
    Number(usize, Part<'t>),
    Clocks([bool; 8], Part<'t>),
    Bounds(ClockBox, Part<'t>),
}
