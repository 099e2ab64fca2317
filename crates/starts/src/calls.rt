ghost use Rattle.std.specs.Prelude.{◌≡◌, length};
ghost use Rattle.rounds.specs.Codes.{whole as every-state};
ghost use Rattle.starts.specs.Told.{zone_left, CutTells, BackTells, UndoTells, Lists};

use bounds::refusal::Refusal;
use bounds::time::TimeDomain;
use std::array;
use zones::boxes::ClockBox;
use zones::zone::{Cut, Zone};

// The zone itself, which has 81 codes. Tried without: a proof knows an array's length where it comes in, and not where a call left it.
fn whole(zone: Zone) -> Zone
    ensures is { result ≡ zone }
    ensures many { length zone.codes ≡ 81 }
{
    zone
}

// Every state.
pub fn all() -> Zone
    ensures { result.codes ≡ every-state }
{
    whole(Zone::all())
}

// The zone, if a call left some of its states.
fn if_kept(zone: Zone, left: Cut) -> Option<Zone>
    ensures is { result ≡ zone_left zone left }
    ensures many { length zone.codes ≡ 81 }
{
    match left {
        Cut::Kept => Some(zone),
        Cut::Empty => None,
    }
}

// What remains of the zone in the box.
pub fn cut<T: TimeDomain>(
    mut zone: Zone,
    time: &T,
    area: &ClockBox,
) -> Result<Option<Zone>, Refusal>
    ensures { CutTells (T.normal time.now) area.now.sides zone.codes result }
{
    let left = zone.cut_box(time, area)?;
    Ok(if_kept(zone, left))
}

// The zone, taken back in time.
pub fn back<T: TimeDomain>(mut zone: Zone, time: &T) -> Result<Zone, Refusal>
    ensures { BackTells (T.normal time.now) zone.codes result }
{
    zone.back(time)?;
    Ok(whole(zone))
}

// The clocks that are reset, in a list: clock k + 1 if it is, and else clock 0, which no reset changes.
fn clocks_of(resets: &[bool; 8]) -> [usize; 8]
    ensures { Lists resets.now result }
{
    array::from_fn(|k| if resets[k] { k + 1 } else { 0 })
}

// What the zone was before the clocks were reset.
pub fn undo<T: TimeDomain>(
    mut zone: Zone,
    time: &T,
    resets: &[bool; 8],
) -> Result<Option<Zone>, Refusal>
    ensures { UndoTells (T.normal time.now) resets.now zone.codes result }
{
    let left = zone.undo(time, &clocks_of(resets))?;
    Ok(if_kept(zone, left))
}
