//! Memory that is given back: no contract speaks of it.

use super::*;
use std::process::Abort;
use std::test::Fail;

/// A frame of three slots, which calls one of two slots that returns.
fn call_once(rt: &impl Abort, areas: &mut Areas) -> Result<(), Fail> {
    let slots = areas.slots();
    assert_eq!(rt; slots, 0);
    areas.allocate(3)?;
    areas.set_slot(2, Cell::Int(1));
    areas.call(10)?;
    areas.allocate(2)?;
    areas.deallocate();
    let place = areas.proceed()?;
    assert_eq!(rt; place, 10);
    assert_eq!(rt; areas.slots(), 3);
    areas.deallocate();
    Ok(())
}

fn check_lengths(rt: &impl Abort, areas: &Areas, saved: usize, slots: usize, frames: usize) {
    assert_eq!(rt; areas.saved.len(), saved);
    assert_eq!(rt; areas.slots.len(), slots);
    assert_eq!(rt; areas.frames.len(), frames);
}

#[test]
fn calls_that_return_leave_nothing(rt: HostRuntime) -> Result<(), Fail> {
    let mut areas = Areas::new(rt.alloc());
    for _ in 0..1000 {
        call_once(&rt, &mut areas)?;
    }
    check_lengths(&rt, &areas, 0, 0, 0);
    Ok(())
}

#[test]
fn a_choice_point_that_is_taken_away_leaves_nothing(rt: HostRuntime) -> Result<(), Fail> {
    let mut areas = Areas::new(rt.alloc());
    areas.set_register(1, Cell::Int(5))?;
    areas.allocate(4)?;
    areas.call(20)?;
    areas.push_point(30)?;
    for _ in 0..1000 {
        call_once(&rt, &mut areas)?;
    }
    check_lengths(&rt, &areas, 2, 4, 1);
    let points = areas.points();
    assert!(rt; points > 0);
    let place = areas.pop_point();
    assert_eq!(rt; place, 30);
    check_lengths(&rt, &areas, 0, 4, 1);
    Ok(())
}
