//! Where a symbol stands.

ghost use Rattle.std.specs.Prelude.{◌≡◌, ◌<◌, ◌≤◌, None, IsTrue, true};
ghost use Rattle.omos_model.specs.ElfFields.{symbol_count};
ghost use Rattle.omos_model.specs.ElfFaults.{object_fault};
ghost use Rattle.omos_model.specs.FragmentOf.{common_piece, is_common, spot_of};
ghost use Rattle.fragment_read.specs.inside.Numbered.{ArePieceNumbers, has_place};

use elf_object::Tables;
use elf_words::values::{SHN_ABS, SHN_COMMON};
use omos_model::Spot;

/// The spot of a symbol that has one, where a common symbol's piece is given.
pub(crate) fn spot_of(tables: &Tables<'_>, numbers: &[u32], k: u32, common: u32) -> Spot
    requires right { object_fault tables.now ≡ None }
    requires counted { 1 ≤ k }
    requires there { k < symbol_count tables.now }
    requires placed { IsTrue (has_place tables.now k) }
    requires numbered { ArePieceNumbers tables.now numbers.now }
    requires common { is_common tables.now k ≡ true → common ≡ common_piece tables.now k }
    ensures { result ≡ spot_of tables.now k }
{
    let symbol = tables.symbol(k);
    if symbol.st_shndx == SHN_ABS {
        return Spot::Fixed {
            value: symbol.st_value,
        };
    }
    if symbol.st_shndx == SHN_COMMON {
        return Spot::Inside {
            piece: common,
            offset: 0,
        };
    }
    Spot::Inside {
        piece: numbers[symbol.st_shndx as usize],
        offset: symbol.st_value as u32,
    }
}
