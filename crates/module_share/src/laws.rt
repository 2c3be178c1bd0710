//! Laws of expansion, each the contract of a function that does nothing.

ghost use Rattle.module_share.specs.Instances.{ShiftLaw};
ghost use Rattle.module_share.specs.Places.{AnywhereLaw, SameTermLaw};
ghost use Rattle.module_share.specs.Trails.{FrontLaw};

/// A term whose leaf numbers are raised defines, refers to and is refused for the same.
pub fn shifted_terms_mean_the_same()
    ensures { ShiftLaw }
{}

/// Two places that give an expression give the same term, but for the numbers of its leaves.
pub fn places_give_the_same_term()
    ensures { SameTermLaw }
{}

/// An expression that was expanded once is expanded alike wherever no limit is met.
pub fn closed_paths_expand_anywhere()
    ensures { AnywhereLaw }
{}

/// What expansion gives is the front of its trail.
pub fn trails_end_as_expansions()
    ensures { FrontLaw }
{}
