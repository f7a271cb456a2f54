//! When all places of a slot are among some places.
ghost use Rattle.adr_seats.specs.Law.{AllOfASlot, FoundAreDistinct, NoMoreThanAll};

/// The laws by which a count tells that a slot is left by all its places: where as many of some places have the slot as
/// `members` says, each place that has it is one of them; never more of them have it; and places that are found in
/// order are distinct, as the laws want.
pub fn all_of_a_slot()
    ensures all { AllOfASlot }
    ensures bound { NoMoreThanAll }
    ensures found { FoundAreDistinct }
{}
