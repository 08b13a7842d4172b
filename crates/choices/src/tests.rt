//! The calls once each, on values that were counted by hand.
use super::*;
use pct_ask::{Ask, Event};
use policy_pick::Moment;
use std::alloc::Global;
use std::process::Abort;
use std::test::Fail;

/// A step of a thread that yields.
fn step_of(thread: u32) -> Event {
    Event {
        thread,
        line: 1,
        ask: Ask::Yield,
        answer: 0,
    }
}

#[test]
fn orders_stand_at_their_places(rt: HostRuntime) -> Result<(), Fail> {
    let alloc = rt.alloc();
    assert_eq!(rt; order_count(0), 1);
    assert_eq!(rt; order_count(12), 479_001_600);
    assert_eq!(rt; order_at(alloc, 3, 0)?.as_slice(), [0, 1, 2].as_slice());
    assert_eq!(rt; order_at(alloc, 3, 4)?.as_slice(), [1, 2, 0].as_slice());
    assert_eq!(rt;
        low_order_at(alloc, 3, 1, 1)?.as_slice(),
        [2, 0, 1].as_slice()
    );
    assert_eq!(rt; bound_of(3, 8, 2), 192);
    Ok(())
}

#[test]
fn points_and_moments_name_steps(rt: HostRuntime) -> Result<(), Fail> {
    let alloc = rt.alloc();
    let events = [step_of(0), step_of(1), step_of(0)];
    let moments = moments_of(alloc, &events, &[3, 3, 5, 1])?;
    let wanted = [
        Moment {
            thread: 0,
            number: 2,
        },
        Moment {
            thread: 0,
            number: 1,
        },
    ];
    assert_eq!(rt; moments.as_slice(), wanted.as_slice());
    assert_eq!(rt;
        points_of(alloc, &events, 9, moments.as_slice())?.as_slice(),
        [3, 1].as_slice()
    );
    Ok(())
}
