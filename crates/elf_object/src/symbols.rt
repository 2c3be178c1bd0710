//! Symbols (System V gABI, chapter 4, "Symbol Table"), and which is the first that is wrong.

ghost use Rattle.std.specs.Prelude.{◌≡◌, ◌+◌, ◌*◌, ◌/◌, ◌%◌, ◌<◌, ◌≤◌, ◌==◌, ◌&&◌, ◌||◌, not, drop};
ghost use Rattle.std.specs.Prelude.{nat_le};
ghost use Rattle.std.specs.List.{find, list_any, take_while};
ghost use Rattle.omos_model.specs.ElfValues.{shn_abs, shn_common, shn_undef, stb_global, stb_local};
ghost use Rattle.omos_model.specs.Names.{is_symbol_name};
ghost use Rattle.omos_model.specs.FragmentParts.{is_alignment, max_size};
ghost use Rattle.omos_model.specs.ElfFields.{is_section, name_of, sh_size};
ghost use Rattle.omos_model.specs.ElfFields.{st_info, symbol_at, symbols};
ghost use Rattle.omos_model.specs.ElfFaults.{is_export, is_kept, is_wrong_symbol};
ghost use Rattle.elf_words.specs.Sym.{sym_at};
ghost use Rattle.elf_object.specs.Stages.{HasHeaders};
ghost use Rattle.elf_object.specs.TablesOf.{AreKeptSections, AreSymbols};

use crate::kept::{is_alignment, is_kept, is_section};
use crate::names::{begins_with_name, rest_from, until_zero};
use crate::reads::section;
use crate::symtab::Symbols;
use elf_words::values::{
    SHN_ABS, SHN_COMMON, SHN_UNDEF, STB_GLOBAL, STB_LOCAL, STB_WEAK, STT_COMMON,
};
use elf_words::{Record, Sym};

/// The largest common symbol, in bytes.
const MAX_SIZE: u64 = 8_388_608;

/// A symbol by its number.
#[tactic(auto, unfolding(omos_base::specs::Fields::number_at))]
pub(crate) fn symbol(file: &[u8], table: Symbols<'_>, k: u32) -> Sym
    requires right { AreSymbols file.now table.count table.at table.strings.now }
    requires there { k < table.count }
    ensures read { result ≡ sym_at file.now (symbol_at file.now k) }
    ensures info { result.st_info ≡ st_info file.now k }
{
    Sym::read_at(file, table.at + 24 * k as usize)
}

/// The name of a symbol: the bytes before the first zero byte.
pub(crate) fn name<'a>(file: &[u8], table: Symbols<'a>, k: u32) -> &'a [u8]
    requires right { AreSymbols file.now table.count table.at table.strings.now }
    requires there { k < table.count }
    ensures { result.now ≡ name_of file.now k }
{
    until_zero(rest_from(table.strings, symbol(file, table, k).st_name))
}

/// LOCAL, GLOBAL or WEAK, and no thread-local type.
fn has_right_info(st_info: u8) -> bool
    ensures { result ≡ (nat_le (st_info / 16) 2 && nat_le (st_info % 16) 5) }
{
    st_info / 16 <= STB_WEAK && st_info % 16 <= STT_COMMON
}

/// UNDEF but for LOCAL, ABS, COMMON for GLOBAL alone, or a section's number, which most have and
/// is tried first.
fn has_right_section(file: &[u8], binding: u8, index: u16) -> bool
    requires { HasHeaders file.now }
    ensures { result ≡ ((not (binding == stb_local) && (index == shn_undef)) || (index == shn_abs)
        || ((binding == stb_global) && (index == shn_common)) || is_section file.now index) }
{
    is_section(file, index as usize)
        || (binding != STB_LOCAL && index == SHN_UNDEF)
        || index == SHN_ABS
        || (binding == STB_GLOBAL && index == SHN_COMMON)
}

/// Within a kept section; a name of other objects' isn't of a section that isn't kept.
fn has_right_value(file: &[u8], kept: &[bool], is_named: bool, index: u16, value: u64) -> bool
    requires headers { HasHeaders file.now }
    requires sections { AreKeptSections file.now kept.now }
    ensures { result ≡ ((not (is_kept file.now index) || nat_le value (sh_size file.now index))
        && not (is_named && (is_section file.now index && not (is_kept file.now index)))) }
{
    if is_kept(file, kept, index as usize) {
        value <= section(file, index as usize).sh_size
    } else {
        !(is_named && is_section(file, index as usize))
    }
}

/// A common symbol's value is its alignment.
fn has_right_common(index: u16, value: u64, size: u64) -> bool
    ensures { result ≡ (not (index == shn_common)
        || ((value == 0 || is_alignment value) && nat_le size max_size)) }
{
    index != SHN_COMMON || ((value == 0 || is_alignment(value)) && size <= MAX_SIZE)
}

/// A name of other objects' is a symbol name with a zero byte behind it in the string table.
fn has_right_name(table: Symbols<'_>, is_named: bool, st_name: u32) -> bool
    ensures { let bytes = drop st_name table.entry.strings.now in
        result ≡ (not is_named || (list_any (λ b. b == 0) bytes
        && is_symbol_name (take_while (λ b. not (b == 0)) bytes))) }
{
    !is_named || begins_with_name(rest_from(table.strings, st_name))
}

/// A symbol that is wrong by itself, whatever other symbols there are.
fn is_wrong_symbol(file: &[u8], kept: &[bool], table: Symbols<'_>, k: u32) -> bool
    requires headers { HasHeaders file.now }
    requires sections { AreKeptSections file.now kept.now }
    requires right { AreSymbols file.now table.count table.at table.strings.now }
    requires there { k < table.count }
    ensures { result ≡ is_wrong_symbol file.now k }
{
    let symbol = symbol(file, table, k);
    let binding = symbol.st_info / 16;
    let is_named = binding == STB_GLOBAL || binding == STB_WEAK;
    !(has_right_info(symbol.st_info)
        && has_right_section(file, binding, symbol.st_shndx)
        && has_right_value(file, kept, is_named, symbol.st_shndx, symbol.st_value)
        && has_right_common(symbol.st_shndx, symbol.st_value, symbol.st_size)
        && has_right_name(table, is_named, symbol.st_name))
}

/// Whether a symbol defines its name for other objects.
pub(crate) fn is_export(file: &[u8], table: Symbols<'_>, k: u32) -> bool
    requires right { AreSymbols file.now table.count table.at table.strings.now }
    requires there { k < table.count }
    ensures { result ≡ is_export file.now k }
{
    let symbol = symbol(file, table, k);
    let binding = symbol.st_info / 16;
    (binding == STB_GLOBAL || binding == STB_WEAK) && symbol.st_shndx != SHN_UNDEF
}

/// The first symbol that is wrong. The exports before it are added to their count.
#[inline(never)]
pub(crate) fn first_wrong(
    file: &[u8],
    kept: &[bool],
    table: Symbols<'_>,
    exports: &mut usize,
) -> Option<u32>
    requires headers { HasHeaders file.now }
    requires sections { AreKeptSections file.now kept.now }
    requires right { AreSymbols file.now table.count table.at table.strings.now }
    ensures { result ≡ find (is_wrong_symbol file.now) (symbols file.now) }
{
    for k in 1..table.count {
        if is_wrong_symbol(file, kept, table, k) {
            return Some(k);
        }
        if is_export(file, table, k) {
            *exports = exports.saturating_add(1);
        }
    }
    None
}
