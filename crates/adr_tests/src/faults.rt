//! Refusals that no script is answered, and which of several is answered.
use adr_value::{Faults, Refusal, both, fault_laws, refusal_laws};
use std::alloc::AllocError;
use std::test::Fail;

#[test]
fn want_of_memory_is_one_refusal(rt: HostRuntime) {
    let refusal = Refusal::from(AllocError);
    assert!(rt; refusal.number() == 99 && refusal.name() == "NoMemory");
    let other = Refusal::NoRuntime;
    assert!(rt; other.number() == 98 && other.name() == "NoRuntime");
    refusal_laws();
}

#[test]
fn the_least_fault_is_answered(rt: HostRuntime) -> Result<(), Fail> {
    assert!(rt; Faults::new().answer(7u8) == Ok(7u8));
    let mut faults = Faults::new();
    faults.note(Refusal::TooMany)?;
    faults.note(Refusal::BadText)?;
    faults.note(Refusal::BadShape)?;
    let is_told = faults.note(Refusal::NoMemory) == Err(Refusal::NoMemory);
    assert!(rt; is_told && faults.answer(7u8) == Err(Refusal::BadText));
    fault_laws();
    Ok(())
}

const MISSING: Result<u8, Refusal> = Err(Refusal::Missing);

/// What is answered where the second of two results is missing.
const BESIDE_MISSING: [(Result<u8, Refusal>, Refusal); 3] = [
    (Ok(1), Refusal::Missing),
    (Err(Refusal::BadText), Refusal::Missing),
    (Err(Refusal::NoMemory), Refusal::NoMemory),
];

#[test]
fn of_two_refusals_the_lesser_is_answered(rt: HostRuntime) {
    for (first, wanted) in BESIDE_MISSING {
        assert!(rt; both(first, MISSING) == Err(wanted), "{wanted}");
    }
}
