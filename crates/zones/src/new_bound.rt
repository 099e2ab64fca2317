ghost use Rattle.std.specs.Prelude.{◌<◌};
ghost use Rattle.zones.specs.Codes.{Near};

use crate::codes::Code;

// A new bound that a zone is cut by: its code, and the row and the column of the place that it stands at.
#[derive(Clone, Copy)]
pub struct NewBound {
    pub row: usize,
    pub column: usize,
    pub code: Code,
    ghost inside: { (row < 9) × (column < 9) },
    ghost near: { Near 1000001 code.0 },
}
