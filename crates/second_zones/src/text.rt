use crate::plain_rounds::Held;
use crate::upper::Upper;
use std::fmt;

// The line of what is held, written from the matrix: `Z`, tab, position, tab, round, tab, bounds, end of line.
#[derive(Clone, Copy)]
pub struct HeldLine<'a> {
    pub held: &'a Held,
    pub clocks: usize,
}

impl fmt::Display for HeldLine<'_> {
    fn fmt<W: fmt::Write>(&self, f: &mut fmt::Formatter<W>) -> fmt::Result {
        let Held {
            position,
            round,
            matrix,
        } = self.held;
        write!(f, "Z\t{position}\t{round}\t")?;
        let mut comma = "";
        // Written anew, as all of this library, and by number, since the line names the places.
        for i in 0..=self.clocks {
            for j in 0..=self.clocks {
                let bound = matrix.at(i, j);
                if i != j && bound != Upper::Free {
                    write!(f, "{comma}{i}-{j}{bound}")?;
                    comma = ",";
                }
            }
        }
        f.write_str("\n")
    }
}
