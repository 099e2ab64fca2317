use bounds::bound::Bound;
use std::fmt;
use zones::zone::Zone;

// A zone as text: its bounds at (i, j), i ≠ j, among clock 0 and the first clocks, that are not none,
// row by row, as `i-j<c` or `i-j<=c`, parted by commas.
#[derive(Clone, Copy)]
pub struct Shown<'a> {
    pub zone: &'a Zone,
    pub clocks: usize,
}

impl fmt::Display for Shown<'_> {
    fn fmt<W: fmt::Write>(&self, f: &mut fmt::Formatter<W>) -> fmt::Result {
        let mut comma = "";
        // By number, since the text names the places. An entry's line says the same, but as bytes of a line of fixed memory.
        for i in 0..=self.clocks {
            for j in 0..=self.clocks {
                if i != j
                    && let Ok(Some(bound)) = self.zone.bound(i, j)
                {
                    let Bound { number, closed } = bound;
                    let equal = if closed { "=" } else { "" };
                    write!(f, "{comma}{i}-{j}<{equal}{number}")?;
                    comma = ",";
                }
            }
        }
        Ok(())
    }
}
