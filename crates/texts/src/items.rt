ghost use Rattle.std.specs.Prelude.{◌≡◌, ℕ, List, Option, Result};
ghost use Rattle.bounds.specs.declared.refusal.Refusal.{Refusal};
ghost use Rattle.byte_text.specs.Parts.{place};
ghost use Rattle.texts.specs.Fields.{dash};
ghost use Rattle.texts.specs.Items.{items_of};

use crate::standing::Standing;
use bounds::refusal::Refusal;
use byte_text::parts::{Part, Parts};

// What a list writes down, item by item.
pub trait Listed: Copy {
    // What it is with one item more, where so many clocks are known.
    ghost item: { ℕ → Self → List ℕ → Result (Option Self) Refusal };

    // What it is with one item more: refused by Number where the bytes are no such item, and none where they name no clock.
    fn with_item(self, bytes: &[u8], standing: Standing) -> Result<Option<Self>, Refusal>
        ensures { result ≡ item standing.clocks self bytes.now };
}

// Whether the bytes write down a list with no item.
fn is_dash(bytes: &[u8]) -> bool
    ensures { result ≡ dash bytes.now }
{
    matches!(bytes, b"-")
}

// What the items of a list make of `list`, parted by commas, or `-` for none.
// Refused by Number where an item can't be read, and then by Name where one names no clock.
pub fn read_items<L: Listed>(list: L, part: Part, standing: Standing) -> Result<L, Refusal>
    ensures { result ≡ items_of (L.item standing.clocks) list (place part.entry) }
{
    if is_dash(part.bytes) {
        return Ok(list);
    }
    let mut list = list;
    let mut named = true;
    for item in Parts::new(part, b',') {
        match list.with_item(item.bytes, standing)? {
            Some(more) => list = more,
            None => named = false,
        }
    }
    if named { Ok(list) } else { Err(Refusal::Name) }
}
