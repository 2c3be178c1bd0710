//! Laws of records, each the contract of a function that does nothing.

ghost use Rattle.history_book.specs.Laws.{CutLaw, NumbersLaw, AnswerLaw, BookLaw, BookGrowsLaw};
ghost use Rattle.history_book.specs.Laws.{CacheLaw, PlaceStaysLaw, NoRoomStaysLaw, OpenStaysLaw};

/// A record may be cut anywhere: its steps follow one another exactly where those of both parts do.
pub fn records_may_be_cut()
    ensures { CutLaw }
{}

/// In a legal record each number is a request's, and of one link request at most; each answer is of
/// a link request of its own.
pub fn numbers_are_own()
    ensures { NumbersLaw }
{}

/// What a legal record answers to a link request is read from the whole of it.
pub fn answers_are_lone()
    ensures { AnswerLaw }
{}

/// In a legal record no two placements share a byte, and as it goes on its book grows.
pub fn placements_never_meet()
    ensures whole { BookLaw }
    ensures grows { BookGrowsLaw }
{}

/// A cache has one item of a path at most.
pub fn caches_have_one_of_a_path()
    ensures { CacheLaw }
{}

/// Between the turns of a link request its place stays.
pub fn places_stay()
    ensures held { PlaceStaysLaw }
    ensures no_room { NoRoomStaysLaw }
{}

/// Between the turns of a link request no other seat ends it or places its image.
pub fn requests_stay_open()
    ensures { OpenStaysLaw }
{}
