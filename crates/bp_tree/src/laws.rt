//! Laws of texts and worked examples, each the contract of a function with an empty body.

ghost use Rattle.bp_tree.specs.Examples.{TokensWork, CanonicalWorks};
ghost use Rattle.bp_tree.specs.Laws.{ImageLaw, RoundTripLaw, OneImageLaw, OneFaultLaw};
ghost use Rattle.bp_tree.specs.Laws.{NotBothLaw, NotNeitherLaw};

/// A text that says an image has no fault at a token and doesn't end early.
pub fn images_have_no_token_fault()
    ensures { ImageLaw }
{}

/// The canonical text of a blueprint says that blueprint.
pub fn canonical_texts_are_read_back()
    ensures { RoundTripLaw }
{}

/// A text says at most one image.
pub fn texts_say_one_image()
    ensures { OneImageLaw }
{}

/// A text has at most one fault.
pub fn texts_have_one_fault()
    ensures { OneFaultLaw }
{}

/// A text that says an image and isn't too long has no fault.
pub fn images_have_no_fault()
    ensures { NotBothLaw }
{}

/// No text lacks both an image that it says and a fault.
pub fn no_text_lacks_both()
    ensures { NotNeitherLaw }
{}

/// Texts and their tokens.
pub fn tokens_work()
    ensures { TokensWork }
{}

/// Images and their canonical texts.
pub fn canonical_texts_work()
    ensures { CanonicalWorks }
{}
