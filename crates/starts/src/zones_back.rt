ghost use Rattle.std.specs.Prelude.{◌≡◌};
ghost use Rattle.starts.specs.Told.{HomeTells};
ghost use Rattle.starts.specs.Starts.{HomeByTells, GoalWay, StepWay};

use crate::calls::{all, back, cut, undo};
use bounds::refusal::Refusal;
use bounds::time::TimeDomain;
use zones::boxes::ClockBox;
use zones::zone::Zone;

// The zone, taken back in time and cut by the invariant. Time and invariant are told apart from one another, since a cut by another box has the time alone.
fn home<T: TimeDomain>(zone: Zone, time: &T, invariant: &ClockBox) -> Result<Option<Zone>, Refusal>
    ensures { HomeTells (T.normal time.now) invariant.now.sides zone.codes result }
{
    cut(back(zone, time)?, time, invariant)
}

// What the first box and then the second leave of the zone, taken back in time and cut by the invariant.
fn home_by<T: TimeDomain>(
    zone: Zone,
    time: &T,
    first: &ClockBox,
    second: &ClockBox,
    invariant: &ClockBox,
) -> Result<Option<Zone>, Refusal>
    ensures { HomeByTells (T.normal time.now) first.now.sides second.now.sides invariant.now.sides zone.codes result }
{
    let Some(there) = cut(zone, time, first)? else {
        return Ok(None);
    };
    let Some(here) = cut(there, time, second)? else {
        return Ok(None);
    };
    home(here, time, invariant)
}

// The states from which a wait leads into the area, all in the invariant.
pub fn into_area<T: TimeDomain>(
    time: &T,
    invariant: &ClockBox,
    area: &ClockBox,
) -> Result<Option<Zone>, Refusal>
    ensures { GoalWay (T.normal time.now) invariant.now.sides area.now.sides result }
{
    home_by(all(), time, invariant, area, invariant)
}

// The states from which a wait, and then a reset in the guard, leads into the zone, all before it in the invariant.
pub fn into_zone<T: TimeDomain>(
    zone: Zone,
    time: &T,
    resets: &[bool; 8],
    guard: &ClockBox,
    invariant: &ClockBox,
) -> Result<Option<Zone>, Refusal>
    ensures { StepWay (T.normal time.now) resets.now guard.now.sides invariant.now.sides zone.codes result }
{
    let Some(before) = undo(zone, time, resets)? else {
        return Ok(None);
    };
    home_by(before, time, guard, invariant, invariant)
}
