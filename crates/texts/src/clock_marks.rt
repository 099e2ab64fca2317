ghost use Rattle.texts.specs.Fields.{clock_item};

use crate::items::Listed;
use crate::standing::Standing;
use bounds::refusal::Refusal;
use byte_text::numerals::number_to;

// The clocks that a list names.
impl Listed for [bool; 8] {
    ghost item = { clock_item };

    fn with_item(self, bytes: &[u8], standing: Standing) -> Result<Option<[bool; 8]>, Refusal> {
        let clock = number_to(bytes, standing.clocks as u64 + 1).ok_or(Refusal::Number)?;
        let Some(k) = standing.clock(clock) else {
            return Ok(None);
        };
        let mut clocks = self;
        clocks[k] = true;
        Ok(Some(clocks))
    }
}
