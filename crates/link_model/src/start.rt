//! The name of a program's start.

ghost use Rattle.std.specs.Prelude.{◌≡◌, IfOk};
ghost use Rattle.link_model.specs.Program.{start_name};

use omos_base::{Fault, NoMemory, SymName};
use std::alloc::Global;

/// The name of a program's start where no other is given.
pub fn usual_start(alloc: Global) -> Result<SymName, NoMemory>
    ensures { IfOk result (λ name. name ≡ start_name) }
{
    match SymName::read(alloc, b"_start") {
        Ok(name) => Ok(name),
        Err(Fault::NoMemory) => Err(NoMemory),
        Err(Fault::Refused(_)) => unreachable!(),
    }
}
