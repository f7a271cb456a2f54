//! Slots that are taken, shared, left and taken again.
use adr_seats::Seats;
use adr_value::Refusal;
use std::alloc::Global;
use std::test::Fail;

/// Adds a place at a slot that is free, and answers that.
fn push_free(seats: &mut Seats) -> Result<u64, Refusal> {
    let slot = seats.free_slot()?;
    seats.push(slot)?;
    Ok(slot)
}

/// Three places at slots of their own, and one that shares the second.
fn four(alloc: Global) -> Result<Seats, Refusal> {
    let mut seats = Seats::new(alloc);
    for _ in 0..3 {
        push_free(&mut seats)?;
    }
    seats.push(1)?;
    Ok(seats)
}

/// So many places in turn at three slots.
fn many(alloc: Global, count: u64) -> Result<Seats, Refusal> {
    let mut seats = Seats::new(alloc);
    for place in 0..count {
        seats.push(place % 3)?;
    }
    Ok(seats)
}

/// Whether a copy is written without its source, at the first place, and has a place less where one is left out.
fn is_apart(seats: &Seats) -> Result<bool, Refusal> {
    let mut copy = seats.copy()?;
    if copy.len() != 1100 {
        return Ok(false);
    }
    copy.set(0, 1100)?;
    let fewer = copy.without(1)?;
    let is_kept = seats.slot(0) == Some(0) && seats.members(0) == 367 && !seats.is_taken(1100);
    let is_written = copy.slot(0) == Some(1100) && copy.members(0) == 366 && copy.len() == 1100;
    Ok(
        is_kept
            && is_written
            && fewer.len() == 1099
            && fewer.slot(0) == Some(1100)
            && fewer.slot(1098) == Some(1)
            && fewer.members(1) == 366,
    )
}

/// Whether the slots that two places leave are taken in turn: the one that was left last, then the other, then a fresh
/// one.
fn takes_those_left(seats: &mut Seats) -> bool {
    if seats.len() != 4 {
        return false;
    }
    let are_moved = seats.set(2, 1).is_ok() && seats.set(0, 1).is_ok();
    let are_left = seats.members(1) == 4 && !seats.is_taken(0);
    are_moved
        && are_left
        && push_free(seats) == Ok(0)
        && push_free(seats) == Ok(2)
        && seats.free_slot() == Ok(3)
}

#[test]
fn slots_that_are_left_are_taken_again(rt: HostRuntime) -> Result<(), Fail> {
    let mut seats = four(rt.alloc())?;
    let are_taken = takes_those_left(&mut seats);
    drop(seats);
    assert!(rt; are_taken);
    Ok(())
}

#[test]
fn copies_of_many_places_stand_apart(rt: HostRuntime) -> Result<(), Fail> {
    let seats = many(rt.alloc(), 1100)?;
    let is_apart = is_apart(&seats)?;
    drop(seats);
    assert!(rt; is_apart);
    Ok(())
}
