//! The tables of a plain object: relocations, symbols and names.

ghost use Rattle.std.specs.Prelude.{◌≡◌, ◌≤◌, length, IfOk};
ghost use Rattle.workload.specs.Tables.{rela_of, rela_table, string_table, sym_of};
ghost use Rattle.workload.specs.Tables.{symbol_entries};

use crate::plain::{PlainRela, PlainSymbol};
use elf_words::{Rela, Sym, push_record};
use omos_base::{Bytes, NoMemory};
use std::alloc::Global;

/// STB_GLOBAL and STT_FUNC.
const DEFINED: u8 = 0x12;

/// STB_GLOBAL and STT_NOTYPE.
const UNDEFINED: u8 = 0x10;

/// The record of a relocation.
fn rela_for(rela: &PlainRela) -> Rela
    ensures { result ≡ rela_of rela.now }
{
    Rela {
        r_offset: u64::from(rela.offset),
        r_info: u64::from(rela.symbol) * 0x1_0000_0000 + u64::from(rela.kind),
        r_addend: rela.addend,
    }
}

/// The table of the relocations.
pub(crate) fn relas_of(alloc: Global, relas: &[PlainRela]) -> Result<Bytes, NoMemory>
    ensures { IfOk result (λ table. table ≡ rela_table relas.now) }
{
    let mut table = Bytes::new(alloc);
    'relas: for rela in relas {
        push_record(&mut table, &rela_for(rela))?;
    }
    Ok(table)
}

/// The record of a symbol whose name begins at this place of the string table.
fn sym_for(name: u32, offset: Option<u32>) -> Sym
    ensures { result ≡ sym_of name offset }
{
    let undefined = Sym {
        st_name: name,
        st_info: UNDEFINED,
        st_other: 0,
        st_shndx: 0,
        st_value: 0,
        st_size: 0,
    };
    match offset {
        Some(offset) => Sym {
            st_info: DEFINED,
            st_shndx: 1,
            st_value: u64::from(offset),
            ..undefined
        },
        None => undefined,
    }
}

/// The tables of the symbols and of their names.
pub(crate) fn symbols_of(alloc: Global, symbols: &[PlainSymbol]) -> Result<(Bytes, Bytes), NoMemory>
    requires small { length (string_table symbols.now) ≤ 1048576 }
    ensures table { IfOk result (λ made. made.0 ≡ symbol_entries symbols.now) }
    ensures strings { IfOk result (λ made. made.1 ≡ string_table symbols.now) }
{
    let mut table = Bytes::new(alloc);
    let mut strings = Bytes::new(alloc);
    let none = Sym {
        st_name: 0,
        st_info: 0,
        st_other: 0,
        st_shndx: 0,
        st_value: 0,
        st_size: 0,
    };
    push_record(&mut table, &none)?;
    strings.push_slice(&[0])?;
    'symbols: for symbol in symbols {
        let place = strings.len() as u32;
        push_record(&mut table, &sym_for(place, symbol.offset))?;
        strings.push_slice(symbol.name.as_bytes())?;
        strings.push_slice(&[0])?;
    }
    Ok((table, strings))
}
