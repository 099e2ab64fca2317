ghost use Rattle.std.specs.Prelude.{◌≡◌, ◌+◌, ◌<◌, ◌≤◌, length, MatchResult};
ghost use Rattle.plans.specs.Items.{Item};
ghost use Rattle.plans.specs.RowLists.{kept, taken, emptied, PushSays, SetSays, AddSays};

use super::rows::Move;
use bounds::refusal::Refusal;

// Rows of any sort in a lent slice, taken from its start. The rows behind those taken hold what they held.
// There is no heap, so the count of rows taken stands beside the slice.
// Each call says by `same` that the slice is still the one that was lent, which no ghost field can: it speaks of one list, not of two.
#[derive(Drop)]
pub struct RowList<'a, R> {
    rows: &'a mut [R],
    used: usize,
}

impl<'a, R: Copy> RowList<'a, R> {
    // A list that has taken none of the rows.
    pub fn new(rows: &'a mut [R]) -> RowList<'a, R>
        ensures is { kept result ≡ record { rows = rows.entry.now; used = 0 } }
        ensures same { result.rows.ghost_name ≡ rows.entry.ghost_name }
    {
        RowList { rows, used: 0 }
    }

    // How many rows are taken.
    pub fn len(&self) -> usize
        ensures { result ≡ self.now.used }
    {
        self.used
    }

    // Takes one more row, and answers its number, from 1; refused by Rows where those supplied have run out.
    pub fn push(&mut self, row: R) -> Result<usize, Refusal>
        ensures is { PushSays row (kept self.old) (kept self.new) result }
        ensures same { self.new.rows.ghost_name ≡ self.old.rows.ghost_name }
    {
        if self.used >= self.rows.len() {
            return Err(Refusal::Rows);
        }
        // Written by index: through `get_mut` the proof does not close.
        self.rows[self.used] = row;
        self.used += 1;
        Ok(self.used)
    }

    // Where row k, from 1, stands; refused by Entry where no such row is taken.
    fn place(&self, k: usize) -> Result<usize, Refusal>
        ensures { MatchResult result (λ i. (i + 1 ≡ k) × (k ≤ length (taken (kept self.now)))) (λ e. (e ≡ Refusal.Entry) × (1 ≤ k → length (taken (kept self.now)) < k)) }
    {
        if k == 0 || k > self.rows().len() {
            return Err(Refusal::Entry);
        }
        Ok(k - 1)
    }

    // Row k, from 1; refused by Entry where no such row is taken.
    pub fn get(&self, k: usize) -> Result<R, Refusal>
        ensures { Item (taken (kept self.now)) k result }
    {
        Ok(self.rows()[self.place(k)?])
    }

    // Puts another row in place of row k, from 1; refused by Entry where no such row is taken.
    pub fn set(&mut self, k: usize, row: R) -> Result<(), Refusal>
        ensures is { SetSays k row (kept self.old) (kept self.new) result }
        ensures same { self.new.rows.ghost_name ≡ self.old.rows.ghost_name }
    {
        let i = self.place(k)?;
        self.rows[i] = row;
        Ok(())
    }

    // Gives back the rows taken; they hold what they held.
    pub fn clear(&mut self)
        ensures is { kept self.new ≡ emptied (kept self.old) }
        ensures same { self.new.rows.ghost_name ≡ self.old.rows.ghost_name }
    {
        self.used = 0;
    }

    // The rows taken.
    pub fn rows(&self) -> &[R]
        ensures { result.now ≡ taken (kept self.now) }
    {
        let rows: &[R] = self.rows;
        &rows[..self.used.min(rows.len())]
    }
}

impl<'a> RowList<'a, Move> {
    // Adds a chance to the sum in the row of move k, from 1, and answers the sum;
    // refused by Entry where no such row is taken, and by Number where the sum would not fit its row.
    pub fn add_chance(&mut self, k: usize, chance: u32) -> Result<u32, Refusal>
        ensures is { AddSays k chance (kept self.old) (kept self.new) result }
        ensures same { self.new.rows.ghost_name ≡ self.old.rows.ghost_name }
    {
        let i = self.place(k)?;
        let sum = self.rows[i].sum.checked_add(chance).ok_or(Refusal::Number)?;
        self.rows[i].sum = sum;
        Ok(sum)
    }
}
