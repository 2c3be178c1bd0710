//! The objects of a workload.

ghost use Rattle.std.specs.Prelude.{◌≡◌, ◌+◌, ◌≤◌, ◌<◌, ◌==◌, length, IfOk, Some, None};
ghost use Rattle.workload_calls.specs.Objects.{object, own_symbols, symbols_of, function};
ghost use Rattle.workload_calls.specs.Objects.{called_symbol};

use crate::names::{function_name, start_name};
use omos_base::{Bytes, NoMemory, Row};
use std::alloc::Global;
use workload::{PlainRela, PlainSymbol, plain_object};

/// A call whose field is zeros, a return, and ten bytes that do nothing.
const CALL_CODE: [u8; 16] = [
    0xe8, 0, 0, 0, 0, 0xc3, 0x90, 0x90, 0x90, 0x90, 0x90, 0x90, 0x90, 0x90, 0x90, 0x90,
];

/// R_X86_64_PLT32.
const PLT32: u32 = 4;

/// The symbol of a function, which is defined where it has an offset.
fn function(alloc: Global, number: u32, offset: Option<u32>) -> Result<PlainSymbol, NoMemory>
    ensures { IfOk result (λ symbol. symbol ≡ function number offset) }
{
    let name = function_name(alloc, number)?;
    Ok(PlainSymbol { name, offset })
}

/// The object's function, and `_start` in object 0.
fn own_symbols(alloc: Global, i: u32) -> Result<Row<PlainSymbol>, NoMemory>
    ensures { IfOk result (λ symbols. symbols ≡ own_symbols i) }
{
    let mut symbols = Row::new(alloc);
    symbols.push(function(alloc, i, Some(0))?)?;
    if i == 0 {
        let name = start_name(alloc)?;
        let offset = Some(0);
        symbols.push(PlainSymbol { name, offset })?;
    }
    Ok(symbols)
}

/// The symbols of object `i` of `n`.
fn symbols_of(alloc: Global, n: u32, i: u32) -> Result<Row<PlainSymbol>, NoMemory>
    requires there { i < n }
    requires few { n ≤ 200 }
    ensures { IfOk result (λ symbols. symbols ≡ symbols_of n i) }
{
    let mut symbols = own_symbols(alloc, i)?;
    let next = (i + 1) % n;
    if next != i {
        symbols.push(function(alloc, next, None)?)?;
    }
    Ok(symbols)
}

/// The number of the symbol that is called, which is the last but in an object alone.
fn called(n: u32, i: u32, count: usize) -> u32
    requires there { i < n }
    requires few { n ≤ 200 }
    requires counted { count ≡ length (symbols_of n i) }
    ensures { result ≡ called_symbol n i }
{
    if (i + 1) % n == i { 1 } else { count as u32 }
}

/// Object `i` of `n`: its function calls that of the next one, and the last calls the first.
pub(crate) fn object(alloc: Global, n: u32, i: u32) -> Result<Bytes, NoMemory>
    requires there { i < n }
    requires few { n ≤ 200 }
    ensures made { IfOk result (λ bytes. bytes ≡ object n i) }
    ensures short { IfOk result (λ bytes. length bytes ≤ 1048576) }
{
    let symbols = symbols_of(alloc, n, i)?;
    let call = PlainRela {
        offset: 1,
        kind: PLT32,
        symbol: called(n, i, symbols.len()),
        addend: -4,
    };
    plain_object(alloc, &CALL_CODE, 16, symbols.as_slice(), &[call])
}
