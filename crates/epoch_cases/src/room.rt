//! What no clause says: that room for votes and for numbers of posts is found, and a report of nothing.
use hb_rules::{Due, Outbox, Report, running};
use hb_wire::Vote;
use std::alloc::{AllocError, Global};
use std::test::Fail;

// Whether room for seven votes is found where none stands, and one stands once it is pushed.
fn has_room_for_votes(alloc: Global) -> Result<bool, AllocError> {
    let mut due = Due::new(alloc);
    due.reserve(7)?;
    let has_room = due.votes().is_empty() && due.spare() >= 7;
    due.push(Vote::NoMore { epoch: 2 })?;
    Ok(has_room && due.votes().len() == 1)
}

// Whether two numbers stand as they were pushed.
fn keeps_numbers(alloc: Global) -> Result<bool, AllocError> {
    let mut outbox = Outbox::new(alloc);
    outbox.push(3)?;
    outbox.push(5)?;
    Ok(outbox.numbers() == [3u32, 5].as_slice())
}

#[test]
fn room_and_votes(rt: HostRuntime) -> Result<(), Fail> {
    let keeps_all = has_room_for_votes(rt.alloc())? && keeps_numbers(rt.alloc())?;
    let report = Report::empty(rt.alloc());
    assert!(rt; keeps_all && !running(&report, 0));
    Ok(())
}
