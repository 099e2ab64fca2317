ghost use Rattle.std.specs.Prelude.{◌≡◌, position};
ghost use Rattle.texts.specs.BoxFields.{is_sign, bound_with, bound_in, side_with, bound_item};

use crate::items::Listed;
use crate::standing::Standing;
use bounds::bound::Bound;
use bounds::refusal::Refusal;
use bounds::tighter::{highest, lowest};
use byte_text::numerals::number_to;
use zones::boxes::Side;

// One bound in the text of a box: which clock it is on, whether it is one from above, as the sign says, and the bound.
// Every clock above 8 counts as 9.
#[derive(Clone, Copy)]
pub struct ClockBound {
    pub clock: u64,
    pub upper: bool,
    pub bound: Bound,
}

// Where the first `<` or `>` stands.
fn sign_at(bytes: &[u8]) -> Option<usize>
    ensures { result ≡ position is_sign bytes.now }
{
    bytes.iter().position(|b| *b == b'<' || *b == b'>')
}

// The bound that these bytes before and after the sign write.
fn bound_of(upper: bool, closed: bool, clock: &[u8], number: &[u8]) -> Option<ClockBound>
    ensures { result ≡ bound_with upper closed clock.now number.now }
{
    let clock = number_to(clock, 9)?;
    let number = number_to(number, 1_000_001)?;
    if number > 1_000_000 {
        return None;
    }
    let bound = Bound {
        number: number as i32,
        closed,
    };
    Some(ClockBound {
        clock,
        upper,
        bound,
    })
}

// The bound that `bytes` write, as `1<=4`.
fn bound_in(bytes: &[u8]) -> Option<ClockBound>
    ensures { result ≡ bound_in bytes.now }
{
    let k = sign_at(bytes)?;
    let upper = bytes[k] == b'<';
    let clock = &bytes[..k];
    match &bytes[k + 1..] {
        [b'=', number @ ..] => bound_of(upper, true, clock, number),
        number => bound_of(upper, false, clock, number),
    }
}

// The side with one more bound.
fn narrowed(side: Side, upper: bool, bound: Bound) -> Side
    ensures { result ≡ side_with side upper bound }
{
    if upper {
        Side {
            upper: lowest(Some(bound), side.upper),
            ..side
        }
    } else {
        Side {
            lower: highest(Some(bound), side.lower),
            ..side
        }
    }
}

// The sides of a box that its bounds leave.
impl Listed for [Side; 8] {
    ghost item = { bound_item };

    fn with_item(self, bytes: &[u8], standing: Standing) -> Result<Option<[Side; 8]>, Refusal> {
        let more = bound_in(bytes).ok_or(Refusal::Number)?;
        let Some(k) = standing.clock(more.clock) else {
            return Ok(None);
        };
        let mut sides = self;
        sides[k] = narrowed(sides[k], more.upper, more.bound);
        Ok(Some(sides))
    }
}
