//! Laws of the definitions, each the contract of a function that does nothing.

ghost use Rattle.omos_model.specs.Laws.{HideLaw, MergeLaw, OverrideLaw, StatesLaw, RowsLaw};
ghost use Rattle.omos_model.specs.Laws.{ConflictLaw, CountsLaw};
ghost use Rattle.omos_model.specs.Laws.{FootprintLaw, NextVersionLaw, OldVersionsLaw};
ghost use Rattle.omos_model.specs.Laws.{FragmentLaw, LeavesLaw, LastPutLaw, OrderLaw, NameLaw};

/// To hide a name is to freeze it and then to restrict it.
pub fn hide_is_freeze_then_restrict()
    ensures { HideLaw }
{}

/// To override is to merge with what the right side does not define.
pub fn override_is_merge_with_the_rest()
    ensures { OverrideLaw }
{}

/// Where nothing is defined twice, the order of a merge does not count.
pub fn merge_commutes()
    ensures { MergeLaw }
{}

/// The list of all references has each one's state, in rows that are numbered as the leaves.
pub fn states_are_listed()
    ensures states { StatesLaw }
    ensures numbers { RowsLaw }
{}

/// The conflict of a merge is the least of all names that both sides define.
pub fn conflict_is_the_least()
    ensures { ConflictLaw }
{}

/// The test on symbol names that the faults of an object take is right.
pub fn names_are_tested()
    ensures { NameLaw }
{}

/// What a file without a fault holds is a fragment.
pub fn files_hold_fragments()
    ensures { FragmentLaw }
{}

/// The leaves of an expansion are numbered from 0, from left to right.
pub fn leaves_are_numbered()
    ensures { LeavesLaw }
{}

/// An expansion has at most 256 leaves, and at most 524,288 references.
pub fn expansions_are_bounded()
    ensures { CountsLaw }
{}

/// What stands under a path is what its last publish put there, and paths stand in order.
pub fn namespace_keeps_the_last()
    ensures last { LastPutLaw }
    ensures order { OrderLaw }
{}

/// A publish makes the next version out of the last, and changes no version that is there.
pub fn versions_follow()
    ensures next { NextVersionLaw }
    ensures old { OldVersionsLaw }
{}

/// The footprint has each path read once, the requested one first.
pub fn footprint_lists_what_is_read()
    ensures { FootprintLaw }
{}
