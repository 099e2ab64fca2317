ghost use Rattle.std.specs.Prelude.{◌≡◌, length, Decides, MatchResult};
ghost use Rattle.plans.specs.Boxes.{blank, BoxOf};
ghost use Rattle.plans.specs.BoxChecks.{SideInRange, Numbers, Free, Wrong, AllBoxes, FirstWrong};

use bounds::refusal::Refusal;
use zones::boxes::{ClockBox, Side};

// Whether a side asks nothing.
fn is_blank(side: &Side) -> bool
    ensures { result ≡ blank side.now }
{
    side.lower.is_none() && side.upper.is_none()
}

// Whether both numbers of a side are in range.
fn side_in_range(side: &Side) -> bool
    ensures { Decides result (SideInRange side.now) }
{
    side.is_ordinary()
}

// Whether every number is in range.
fn numbers_fit(sides: &[Side]) -> bool
    ensures { Decides result (Numbers sides.now) }
{
    sides.iter().all(side_in_range)
}

// Whether nothing is asked of a clock above the count.
fn clocks_fit(sides: &[Side], clocks: usize) -> bool
    ensures { Decides result (Free clocks sides.now) }
{
    sides.iter().skip(clocks).all(is_blank)
}

// Refuses a box by Number, and then by Name.
pub fn check_box(b: &ClockBox, clocks: usize) -> Result<(), Refusal>
    ensures { MatchResult result (λ _. BoxOf clocks b.now) (λ e. Wrong clocks b.now e) }
{
    if !numbers_fit(&b.sides) {
        return Err(Refusal::Number);
    }
    if !clocks_fit(&b.sides, clocks) {
        return Err(Refusal::Name);
    }
    Ok(())
}

// Refuses the first box that is wrong.
pub fn check_boxes(boxes: &[ClockBox], clocks: usize) -> Result<(), Refusal>
    ensures { MatchResult result (λ _. AllBoxes clocks boxes.now (length boxes.now)) (λ e. FirstWrong clocks boxes.now e) }
{
    for b in boxes {
        check_box(b, clocks)?;
    }
    Ok(())
}
