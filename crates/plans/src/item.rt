ghost use Rattle.plans.specs.Items.{Item};

use bounds::refusal::Refusal;

// Item k, from 1; refused by Entry where there is none.
pub(crate) fn item<R: Copy>(rows: &[R], k: usize) -> Result<R, Refusal>
    ensures { Item rows.now k result }
{
    k.checked_sub(1)
        .and_then(|i| rows.get(i))
        .copied()
        .ok_or(Refusal::Entry)
}
