//! The forms of an expression in parentheses.

ghost use Rattle.std.specs.Prelude.{◌≡◌, MatchOption};
ghost use Rattle.bp_tree.specs.inside.Symbols.{keyword, kind_nesting};

/// An operator on one expression.
#[derive(Clone, Copy)]
pub(crate) enum Applied {
    Rename,
    Restrict,
    Freeze,
    Hide,
    Show,
    CopyAs,
}

/// What the word after the parenthesis says.
#[derive(Clone, Copy)]
pub(crate) enum Form {
    Merge,
    Override,
    Apply(Applied),
}

impl Applied {
    /// How deep its own parentheses nest: the list of a show.
    pub(crate) fn nesting(self) -> u32
        ensures { result ≡ kind_nesting self }
    {
        match self {
            Applied::Show => 1,
            _ => 0,
        }
    }
}

impl Form {
    /// The form with this keyword.
    pub(crate) fn named(word: &[u8]) -> Option<Form>
        ensures { MatchOption result ((form : Form) → word.now ≡ keyword form → ⊥)
            (λ form. word.now ≡ keyword form) }
    {
        match word {
            b"merge" => Some(Form::Merge),
            b"override" => Some(Form::Override),
            b"rename" => Some(Form::Apply(Applied::Rename)),
            b"restrict" => Some(Form::Apply(Applied::Restrict)),
            b"freeze" => Some(Form::Apply(Applied::Freeze)),
            b"hide" => Some(Form::Apply(Applied::Hide)),
            b"show" => Some(Form::Apply(Applied::Show)),
            b"copy_as" => Some(Form::Apply(Applied::CopyAs)),
            _ => None,
        }
    }
}
