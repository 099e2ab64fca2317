use bounds::bound::{Bound, sum};
use bounds::refusal::Refusal;
use bounds::time::{CycleTime, HandTime};
use std::test::Fail;
use zones::state::State;
use zones::zone::{Cut, Zone};

const MILLION: Bound = Bound {
    number: 1_000_000,
    closed: true,
};

// Cuts the zone at each (i, j) by its bound in turn, for as long as some state is left, and tells how the last cut ended.
fn cut_by_each(zone: &mut Zone, cuts: &[(usize, usize, Bound)]) -> Result<Cut, Refusal> {
    for &(i, j, bound) in cuts {
        if zone.cut(&HandTime, i, j, Some(bound))? == Cut::Empty {
            return Ok(Cut::Empty);
        }
    }
    Ok(Cut::Kept)
}

#[test]
fn closed_plus_open_is_open(rt: HostRuntime) -> Result<(), Fail> {
    let total = sum(Some(Bound::at_most(3)), Some(Bound::below(-3)))?;
    assert_eq!(rt; total, Some(Bound::below(0)));
    Ok(())
}

#[test]
fn two_to_four_back_and_undone(rt: HostRuntime) -> Result<(), Fail> {
    let mut zone = Zone::all();
    cut_by_each(
        &mut zone,
        &[(0, 1, Bound::at_most(-2)), (1, 0, Bound::at_most(4))],
    )?;
    assert_eq!(rt; zone.undo(&HandTime, &[1])?, Cut::Empty);
    assert_eq!(rt; zone.bound(0, 1)?, Some(Bound::at_most(-2)));
    zone.back(&HandTime)?;
    assert_eq!(rt; zone.bound(0, 1)?, Some(Bound::at_most(0)));
    assert_eq!(rt; zone.bound(1, 0)?, Some(Bound::at_most(4)));
    let eight_halves = State {
        scale: 2,
        readings: &[8],
    };
    assert!(rt; zone.holds(&HandTime, &eight_halves)?);
    assert_eq!(rt; zone.holds(&CycleTime, &eight_halves), Err(Refusal::State));
    Ok(())
}

#[test]
fn a_number_leaves_the_range(rt: HostRuntime) -> Result<(), Fail> {
    let mut zone = Zone::all();
    let steps = [
        (1, 2, MILLION),
        (2, 3, MILLION),
        (3, 4, MILLION),
        (4, 5, MILLION),
    ];
    assert_eq!(rt; cut_by_each(&mut zone, &steps)?, Cut::Kept);
    let before = zone;
    assert_eq!(rt;
        zone.cut(&HandTime, 5, 6, Some(MILLION)),
        Err(Refusal::Range)
    );
    assert!(rt; zone.within(&before, &HandTime)?);
    assert!(rt; before.within(&zone, &HandTime)?);
    Ok(())
}

#[test]
fn empty_comes_before_range(rt: HostRuntime) -> Result<(), Fail> {
    let mut zone = Zone::all();
    let steps = [
        (1, 2, MILLION),
        (2, 3, MILLION),
        (3, 4, MILLION),
        (4, 5, MILLION),
        (6, 5, Bound::below(-1_000_000)),
        (5, 6, MILLION),
    ];
    assert_eq!(rt; cut_by_each(&mut zone, &steps)?, Cut::Empty);
    Ok(())
}
