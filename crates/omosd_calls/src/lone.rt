//! The image of one object that stands alone.

ghost use Rattle.std.specs.Prelude.{◌≡◌, ◌≤◌, IfOk, Ok, Err, length};
ghost use Rattle.omos_base.specs.Fault.{MatchFault};
ghost use Rattle.link_model.specs.Module.{alone};
ghost use Rattle.omosd_calls.specs.Lone.{lone_answer, lone_path};

use crate::cause::Cause;
use fragment_read::fragment_in;
use image_write::image_at;
use link_model::Evaluated;
use omos_base::{Bytes, Fault, NoMemory, Part, PathName, Shared};
use omos_model::{Entry, Fragment};
use seeded_hash::Seed;
use std::alloc::Global;

/// The address of the image.
const BASE: u64 = 0x40_0000;

/// The path under which the object stands.
fn lone_path() -> PathName
    ensures { result ≡ lone_path }
{
    match PathName::read(b"/o") {
        Ok(path) => path,
        Err(_) => unreachable!(),
    }
}

fn evaluate(alloc: Global, seed: Seed, fragment: Fragment) -> Result<Evaluated, NoMemory>
    ensures { IfOk result (λ m. (m.path ≡ lone_path)
        × (m.footprint ≡ alone lone_path (Entry.Object fragment))) }
{
    let entry = Shared::of(alloc, Entry::Object(fragment))?;
    module_land::lone(alloc, seed, lone_path(), entry)
}

/// The image of a file's object, or why it has none. The file isn't copied. The table of its names
/// hashes by the seed.
pub(crate) fn lone_image(alloc: Global, seed: Seed, file: Bytes) -> Result<Bytes, Fault<Cause>>
    requires { length file ≤ 1048577 }
    ensures { MatchFault result
        (λ image. lone_answer file ≡ Ok image) (λ cause. lone_answer file ≡ Err cause) }
{
    let fragment = match fragment_in(alloc, &Part::of(alloc, file)?) {
        Ok(fragment) => fragment,
        Err(Fault::Refused(fault)) => return Err(Fault::Refused(Cause::Object(fault))),
        Err(Fault::NoMemory) => return Err(Fault::NoMemory),
    };
    let Ok(module) = evaluate(alloc, seed, fragment) else {
        return Err(Fault::NoMemory);
    };
    match image_at(alloc, &module, BASE) {
        Ok(image) => Ok(image),
        Err(Fault::Refused(refusal)) => Err(Fault::Refused(Cause::Link(refusal))),
        Err(Fault::NoMemory) => Err(Fault::NoMemory),
    }
}
