//! The words of the command line.

ghost use Rattle.std.specs.Prelude.{◌↔◌, IsTrue};
ghost use Rattle.omosd_calls.specs.Words.{IsOnce};

/// The words are the one word `once`.
pub(crate) fn is_once(words: &[String]) -> bool
    ensures { IsTrue result ↔ IsOnce words.now }
{
    match words {
        [word] => word.as_str() == "once",
        _ => false,
    }
}
