//! What the tables say of a symbol (System V gABI, chapter 4, "Symbol Table").

ghost use Rattle.std.specs.Prelude.{◌≡◌, ◌<◌, ◌/◌};
ghost use Rattle.omos_model.specs.ElfFields.{binding, st_shndx, st_value, symbol_count};
ghost use Rattle.omos_model.specs.ElfFaults.{has_name, is_export, is_local};
ghost use Rattle.omos_model.specs.FragmentOf.{is_common};

use elf_object::Tables;
use elf_words::values::{SHN_COMMON, SHN_UNDEF, STB_GLOBAL, STB_LOCAL, STB_WEAK};

/// The binding of a symbol.
#[tactic(auto, unfolding(omos_base::specs::Fields::number_at))]
pub(crate) fn binding(tables: &Tables<'_>, k: u32) -> u8
    requires { k < symbol_count tables.now }
    ensures { result ≡ binding tables.now k }
{
    tables.symbol(k).st_info / 16
}

/// The number of a symbol's section, or what stands in its place.
pub(crate) fn index(tables: &Tables<'_>, k: u32) -> u16
    requires { k < symbol_count tables.now }
    ensures { result ≡ st_shndx tables.now k }
{
    tables.symbol(k).st_shndx
}

/// A symbol's value.
pub(crate) fn value(tables: &Tables<'_>, k: u32) -> u64
    requires { k < symbol_count tables.now }
    ensures { result ≡ st_value tables.now k }
{
    tables.symbol(k).st_value
}

/// Whether a symbol is LOCAL.
pub(crate) fn is_local(tables: &Tables<'_>, k: u32) -> bool
    requires { k < symbol_count tables.now }
    ensures { result ≡ is_local tables.now k }
{
    binding(tables, k) == STB_LOCAL
}

/// Whether a symbol is GLOBAL or WEAK.
pub(crate) fn has_name(tables: &Tables<'_>, k: u32) -> bool
    requires { k < symbol_count tables.now }
    ensures { result ≡ has_name tables.now k }
{
    let binding = binding(tables, k);
    binding == STB_GLOBAL || binding == STB_WEAK
}

/// Whether a symbol defines its name for other objects.
pub(crate) fn is_export(tables: &Tables<'_>, k: u32) -> bool
    requires { k < symbol_count tables.now }
    ensures { result ≡ is_export tables.now k }
{
    has_name(tables, k) && index(tables, k) != SHN_UNDEF
}

/// Whether a symbol is a common one.
pub(crate) fn is_common(tables: &Tables<'_>, k: u32) -> bool
    requires { k < symbol_count tables.now }
    ensures { result ≡ is_common tables.now k }
{
    index(tables, k) == SHN_COMMON
}
