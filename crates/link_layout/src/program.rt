//! What is laid out.

ghost use Rattle.std.specs.Prelude.{◌≡◌};
ghost use Rattle.link_model.specs.Module.{found};
ghost use Rattle.link_model.specs.Plan.{entry_of};
ghost use Rattle.link_layout.specs.Program.{IsProgramOf};

use dict_row::DictRow;
use link_model::Evaluated;
use link_model::laws::modules_are_bounded;
use omos_base::Shared;
use omos_model::{Entry, Landing, Start, Target};

/// A program that is to be laid out. It needs no module: whoever has objects, and knows what their
/// references land on, can make one.
#[derive(Clone, Copy)]
pub struct Program<'a> {
    /// Its objects, from left to right.
    pub leaves: &'a [Shared<Entry>],
    /// For each object, what each of its fixups lands on, in order.
    pub landings: &'a [DictRow<Landing>],
    /// Where it starts.
    pub start: &'a Start,
    /// What the start's name is defined as, if it starts by a name that is defined.
    pub entry: Option<Target>,
}

/// What the start of a module is defined as, if it is.
fn entry_in(evaluated: &Evaluated) -> Option<Target>
    ensures { result ≡ entry_of (found evaluated.now.names) evaluated.now.start }
{
    match evaluated.start() {
        Start::Named(name) => evaluated.find(name),
        Start::NoEntry => None,
    }
}

/// The program that a module is.
pub fn program_of(evaluated: &Evaluated) -> Program<'_>
    ensures { IsProgramOf evaluated.now result }
{
    modules_are_bounded();
    Program {
        leaves: evaluated.leaves(),
        landings: evaluated.landings(),
        start: evaluated.start(),
        entry: entry_in(evaluated),
    }
}
