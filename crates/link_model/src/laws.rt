//! Laws of evaluated modules, each the contract of a function that does nothing.

ghost use Rattle.link_model.specs.Laws.{BoundsLaw, SizeLaw, OwnPlanLaw, FrameLaw, OwnFrameLaw};
ghost use Rattle.link_model.specs.Laws.{StampLaw, CurrentLaw};
ghost use Rattle.link_model.specs.Laws.{ModuleLandingsLaw, ProgramLandingsLaw, ReferencesLaw};
ghost use Rattle.link_model.specs.Laws.{LeavesApartLaw, OpenLaw};

/// A module has at most 256 leaves, and at most 524,288 references.
pub fn modules_are_bounded()
    ensures { BoundsLaw }
{}

/// An image's file has at most 8,388,608 bytes.
pub fn images_are_short()
    ensures { SizeLaw }
{}

/// A module's plan is that of its path on the namespace that its footprint lists.
pub fn modules_have_their_plan()
    ensures { OwnPlanLaw }
{}

/// What a reference lands on, in a module and in the program of which a path's plan is made, is
/// what descent through the path's term finds for its leaf and number.
pub fn landings_are_found_by_descent()
    ensures in_module { ModuleLandingsLaw }
    ensures in_program { ProgramLandingsLaw }
    ensures references { ReferencesLaw }
{}

/// A name is open in the list of all references, by which operators are refused, just where descent
/// finds a reference that is open under it. No two leaves of an expansion have one number.
pub fn open_names_are_found_by_descent()
    ensures apart { LeavesApartLaw }
    ensures opened { OpenLaw }
{}

/// A path's expansion, footprint, plan and answers depend on nothing but the entries and stamps
/// under the paths that it reads.
pub fn footprints_decide()
    ensures frame { FrameLaw }
    ensures own { OwnFrameLaw }
{}

/// In one history of publishes a stamp is of one entry: while the stamps under the paths that it
/// reads stand, a path is the same on a later version.
pub fn stamps_decide()
    ensures stamp { StampLaw }
    ensures current { CurrentLaw }
{}
