//! Texts that end in a number.

ghost use Rattle.std.specs.Prelude.{◌≡◌, ◌+◌, ◌≤◌, codes, length, IfOk};
ghost use Rattle.workload_calls.specs.Objects.{numbered};

use count_lines::push_count;
use omos_base::{Bytes, Fault, NoMemory, SymName};
use std::alloc::Global;

/// The text and the number behind it, as `/o/17`.
pub(crate) fn numbered(alloc: Global, text: &[u8], number: u32) -> Result<Bytes, NoMemory>
    ensures made { IfOk result (λ bytes. bytes ≡ numbered text.now number) }
    ensures short { IfOk result (λ bytes. length bytes ≤ length text.now + 10) }
{
    let mut bytes = Bytes::new(alloc);
    push_count(&mut bytes, text, u64::from(number))?;
    Ok(bytes)
}

/// `f` and the number, as the name of a symbol.
pub(crate) fn function_name(alloc: Global, number: u32) -> Result<SymName, NoMemory>
    ensures { IfOk result (λ name. name ≡ numbered (codes "f") number) }
{
    let bytes = numbered(alloc, b"f", number)?;
    match SymName::read(alloc, bytes.as_slice()) {
        Ok(name) => Ok(name),
        Err(Fault::NoMemory) => Err(NoMemory),
        Err(Fault::Refused(_)) => unreachable!(),
    }
}

/// `_start`.
pub(crate) fn start_name(alloc: Global) -> Result<SymName, NoMemory>
    ensures { IfOk result (λ name. name ≡ codes "_start") }
{
    match SymName::read(alloc, b"_start") {
        Ok(name) => Ok(name),
        Err(Fault::NoMemory) => Err(NoMemory),
        Err(Fault::Refused(_)) => unreachable!(),
    }
}
