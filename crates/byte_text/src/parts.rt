ghost use Rattle.std.specs.Prelude.{◌+◌, ◌^◌, ◌<◌, length, IfSome};
ghost use Rattle.std.proofs.Props.{props};

mod walk;

pub use walk::up_to;

// Some of the bytes of a text, and where in the text they begin.
#[derive(Clone, Copy, PartialEq, Eq, Debug)]
pub struct Part<'a> {
    pub bytes: &'a [u8],
    pub at: usize,
}

// A walk over the parts of a text that stand between the bytes `mark`: what is left of the text, or none where all parts were given.
#[derive(Clone, Copy)]
pub struct Parts<'a> {
    rest: Option<Part<'a>>,
    mark: u8,
    ghost fits: { IfSome rest (λ p. p.at + length p.bytes.now < 2 ^ 64) } by { Prim.hlevel props },
}
