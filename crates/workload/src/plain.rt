//! Plain objects: five sections, of which one is code, one holds its relocations, one the symbols
//! and one their names (System V gABI, chapter 4).

ghost use Rattle.std.specs.Prelude.{◌≡◌, length, All, IfOk, OnOk};
ghost use Rattle.workload.specs.Plain.{IsSmall, NamesSymbol, placed, plain_bytes};

use crate::headers::{ehdr_for, headers_for};
use crate::plan::plan_for;
use crate::tables::{relas_of, symbols_of};
use elf_words::push_record;
use omos_base::{Bytes, NoMemory, SymName};
use std::alloc::Global;

/// A symbol: defined at an offset in the code, or undefined.
#[derive(Debug, Drop)]
pub struct PlainSymbol {
    /// Its name.
    pub name: SymName,
    /// Where it stands in the code, if it is defined.
    pub offset: Option<u32>,
}

/// A relocation of the code.
#[derive(Clone, Copy, Debug, PartialEq, Eq)]
pub struct PlainRela {
    /// Where the field begins in the code.
    pub offset: u32,
    /// Its type, as R_X86_64_PLT32 (4).
    pub kind: u32,
    /// The number of the symbol, counted from 1.
    pub symbol: u32,
    /// What is added to the symbol's address.
    pub addend: i64,
}

/// Fills the bytes up with zeros to this place, and appends the part.
fn place(bytes: &mut Bytes, place: u64, part: &[u8]) -> Result<(), NoMemory>
    ensures { OnOk result (bytes.new ≡ placed place bytes.old part.now) }
{
    bytes.push_zeros((place as usize).saturating_sub(bytes.len()))?;
    bytes.push_slice(part)
}

/// The object with this code, aligned so, these symbols from number 1 on, and these relocations.
pub fn plain_object(
    alloc: Global,
    code: &[u8],
    align: u32,
    symbols: &[PlainSymbol],
    relas: &[PlainRela],
) -> Result<Bytes, NoMemory>
    requires small { IsSmall code.now symbols.now relas.now }
    requires named { All (NamesSymbol (length symbols.now)) relas.now }
    ensures { IfOk result
        (λ bytes. bytes ≡ plain_bytes code.now align symbols.now relas.now) }
{
    let relas = relas_of(alloc, relas)?;
    let (symbols, strings) = symbols_of(alloc, symbols)?;
    let plan = plan_for(
        code.len() as u64,
        relas.len() as u64,
        symbols.len() as u64,
        strings.len() as u64,
    );
    let headers = headers_for(alloc, plan, align)?;
    let mut file = Bytes::with_capacity(alloc, plan.headers as usize + 320)?;
    push_record(&mut file, &ehdr_for(plan.headers))?;
    file.push_slice(code)?;
    place(&mut file, plan.relas.offset, relas.as_slice())?;
    place(&mut file, plan.symbols.offset, symbols.as_slice())?;
    place(&mut file, plan.strings.offset, strings.as_slice())?;
    place(&mut file, plan.headers, headers.as_slice())?;
    Ok(file)
}
