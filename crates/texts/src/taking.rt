ghost use Rattle.std.specs.Prelude.{◌≡◌, ◌+◌, ◌^◌, ◌<◌, ◌≤◌, length};
ghost use Rattle.plans.specs.RowLists.{kept};
ghost use Rattle.bounds.specs.declared.refusal.Refusal.TheVariants.{Rows};
ghost use Rattle.byte_text.specs.Parts.{place};
ghost use Rattle.texts.specs.Faults.{faulty, demanded};
ghost use Rattle.texts.specs.PlanRows.{has_room, put_within, open_sum, raised_open};

use crate::fault::TextFault;
use crate::line::Line;
use bounds::refusal::Refusal;
use plans::row_list::RowList;
use plans::rows::Move;

// Takes the row that a line writes, if the list has fewer than `limit` and another is supplied; else the line is refused by Rows.
pub fn take_row<'t, R: Copy>(
    line: Line<'t>,
    list: &mut RowList<R>,
    limit: usize,
    row: R,
) -> Result<(), TextFault<'t>>
    ensures taken { faulty result ≡ demanded (has_room limit (kept list.old)) Rows line.entry.number (place line.entry.whole) }
    ensures rows { kept list.new ≡ put_within limit (kept list.old) row }
    ensures same { list.new.rows.ghost_name ≡ list.old.rows.ghost_name }
{
    let taken = list.len() < limit && list.push(row).is_ok();
    line.demand(taken, Refusal::Rows)
}

// The chances of the last move's outcomes so far. There is such a move, so its row is never refused.
pub fn sum_of_open(moves: &RowList<Move>) -> u32
    requires some { 1 ≤ moves.now.used }
    requires fits { moves.now.used ≤ length moves.now.rows.now }
    ensures { result ≡ open_sum (kept moves.now) }
{
    moves.get(moves.len()).map_or(0, |row| row.sum)
}

// Adds a chance to the sum in the last move's row.
pub fn add_to_open(moves: &mut RowList<Move>, chance: u32)
    requires some { 1 ≤ moves.old.used }
    requires fits { moves.old.used ≤ length moves.old.rows.now }
    requires small { open_sum (kept moves.old) + chance < 2 ^ 32 }
    ensures rows { kept moves.new ≡ raised_open chance (kept moves.old) }
    ensures same { moves.new.rows.ghost_name ≡ moves.old.rows.ghost_name }
{
    let k = moves.len();
    // Never refused: the move is there, and the sum fits its row.
    let _ = moves.add_chance(k, chance);
}
