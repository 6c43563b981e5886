//! Tests of the bodies as a caller hands them in.

use crate::{Hold, Tally, TaskBody};
use std::alloc::AllocError;

#[test]
fn tally_counts_and_adds(rt: HostRuntime) -> Result<(), AllocError> {
    let mut body = Tally::make(rt.alloc())?;
    assert_eq!(rt; body.fire(0, &[]), 1);
    assert_eq!(rt; body.fire(0, &[Some(5), None, Some(-2)]), 5);
    assert_eq!(rt; body.fire(1023, &[None]), 1);
    body.reset(0);
    assert_eq!(rt; body.fire(0, &[]), 1);
    assert_eq!(rt; body.fire(1023, &[]), 2);
    Ok(())
}

#[test]
fn saturates(rt: HostRuntime) -> Result<(), AllocError> {
    let mut body = Tally::make(rt.alloc())?;
    assert_eq!(rt; body.fire(7, &[Some(i64::MAX), Some(-1)]), i64::MAX - 1);
    assert_eq!(rt;
        body.fire(7, &[Some(i64::MIN), Some(i64::MIN), Some(3)]),
        i64::MIN + 3
    );
    Ok(())
}

#[test]
fn hold_keeps_the_last_input(rt: HostRuntime) -> Result<(), AllocError> {
    let mut body = Hold::make(rt.alloc())?;
    assert_eq!(rt; body.fire(3, &[None]), 0);
    assert_eq!(rt; body.fire(3, &[Some(4), Some(-9), None]), -9);
    assert_eq!(rt; body.fire(3, &[]), -9);
    assert_eq!(rt; body.fire(1023, &[None]), 0);
    body.reset(3);
    assert_eq!(rt; body.fire(3, &[None, None]), 0);
    Ok(())
}

#[test]
fn boxed_bodies(rt: HostRuntime) -> Result<(), AllocError> {
    let mut tally: Box<dyn TaskBody> = Box::new(rt.alloc(), Tally::make(rt.alloc())?)?;
    let mut hold: Box<dyn TaskBody> = Box::new(rt.alloc(), Hold::make(rt.alloc())?)?;
    assert!(rt; tally.name_is("tally") && !tally.name_is("hold") && !tally.name_is(""));
    assert!(rt; hold.name_is("hold") && !hold.name_is("holds"));
    assert_eq!(rt; tally.fire(2, &[Some(7)]), 8);
    assert_eq!(rt; hold.fire(2, &[Some(7)]), 7);
    Ok(())
}
