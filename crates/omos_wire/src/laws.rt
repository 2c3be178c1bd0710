//! Laws of frames and streams, each the contract of a function that does nothing.

ghost use Rattle.omos_wire.specs.Laws.{ApartLaw, BadLaw, ReplyLaw, SeenLaw, OneCutLaw};

/// A frame is seen as the frame of its request, whatever follows it.
pub fn frames_are_seen()
    ensures { SeenLaw }
{}

/// A stream has one list of frames and one rest.
pub fn one_cut()
    ensures { OneCutLaw }
{}

/// Bytes that begin no frame begin none however they go on, and for the same cause.
pub fn bad_stays_bad()
    ensures { BadLaw }
{}

/// No frame begins another.
pub fn frames_are_apart()
    ensures { ApartLaw }
{}

/// A frame is of one reply: what `read_reply` reads is what `write_reply` wrote.
pub fn one_reply()
    ensures { ReplyLaw }
{}
