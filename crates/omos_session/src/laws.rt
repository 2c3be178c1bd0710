//! Laws of turns, each the contract of a function that does nothing.

ghost use Rattle.omos_session.specs.Laws.{AloneLaw, ClimbLaw, CompleteLaw, FewLaw, MissLaw, OwnLaw};
ghost use Rattle.omos_session.specs.Laws.{TurnsStayLaw};

/// The lengths that the record had at a seat's turns never fall, and lie between its length before
/// and after.
pub fn lengths_climb()
    ensures { ClimbLaw }
{}

/// A seat's own steps are its old ones, followed by those of its turns.
pub fn turns_own_their_steps()
    ensures { OwnLaw }
{}

/// What a turn left stays the front of the record.
pub fn records_only_grow()
    ensures { TurnsStayLaw }
{}

/// Where nobody else adds, the record is the old one and the steps of the turns.
pub fn alone_nothing_else_is_added()
    ensures { AloneLaw }
{}

/// A session has at most 2^18 turns.
pub fn turns_are_few()
    ensures { FewLaw }
{}

/// A frame's link misses once at most.
pub fn misses_are_few()
    ensures { MissLaw }
{}

/// A session whose source tells whole frames up to an end, and that meets no fault, comes to that
/// end.
pub fn sessions_are_complete()
    ensures { CompleteLaw }
{}
