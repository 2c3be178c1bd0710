//! The symbols that relocations name, each kept once, in order of first use.

ghost use Rattle.std.specs.Prelude.{◌≡◌, ◌∷◌, ◌++◌, [], suc, ◌<◌, set, length, replicate, IfOk};
ghost use Rattle.std.specs.Prelude.{OnOk, slice_index};
ghost use Rattle.fragment_read.specs.inside.Used.{AreUsed, HasNamed, named_symbols};

use omos_base::{NoMemory, Row};
use std::alloc::Global;

/// The symbols, and for each relocation which it names.
#[derive(Drop)]
pub(crate) struct Used {
    /// By a symbol's number one more than its place among the symbols, or 0 where none names it.
    pub places: Vec<u32>,
    /// The numbers of the symbols.
    pub symbols: Row<u32>,
    /// For each relocation the place of its symbol.
    pub keys: Row<u32>,
}

fn no_places(alloc: Global, symbols: u32) -> Result<Vec<u32>, NoMemory>
    ensures { IfOk result (λ places. places.items ≡ replicate symbols 0) }
{
    let mut places = Vec::new(alloc);
    places.resize(symbols as usize, 0)?;
    Ok(places)
}

/// No relocations, of a file of so many symbols. There is room for as many as are given.
pub(crate) fn none(alloc: Global, symbols: u32, room: usize) -> Result<Used, NoMemory>
    ensures used { IfOk result AreUsed }
    ensures symbols { IfOk result (λ used. named_symbols used ≡ []) }
    ensures places { IfOk result (λ used. length used.places.items ≡ symbols) }
    ensures none { IfOk result (λ used. used.symbols ≡ []) }
{
    Ok(Used {
        places: no_places(alloc, symbols)?,
        symbols: Row::new(alloc),
        keys: Row::from_vec(Vec::with_capacity(alloc, room)?),
    })
}

/// Appends a symbol that wasn't named, and gives its place.
fn add(used: &mut Used, k: u32) -> Result<u32, NoMemory>
    requires used { AreUsed used.old }
    requires there { k < length used.old.places.items }
    requires new { slice_index used.old.places.items k ≡ 0 }
    ensures place { IfOk result (λ place. place ≡ length used.old.symbols) }
    ensures places { OnOk result (used.new.places.items
        ≡ set used.old.places.items k (suc (length used.old.symbols))) }
    ensures symbols { OnOk result (used.new.symbols ≡ used.old.symbols ++ k ∷ []) }
    ensures keys { OnOk result (used.new.keys ≡ used.old.keys) }
{
    let place = used.symbols.len() as u32;
    used.symbols.push(k)?;
    used.places[k as usize] = place + 1;
    Ok(place)
}

/// One relocation more, which names this symbol.
#[inline(always)]
pub(crate) fn name(used: &mut Used, k: u32) -> Result<(), NoMemory>
    requires used { AreUsed used.old }
    requires there { k < length used.old.places.items }
    ensures { OnOk result (HasNamed used.old used.new k) }
{
    let next = used.places[k as usize];
    let place = if next == 0 { add(used, k)? } else { next - 1 };
    used.keys.push(place)?;
    Ok(())
}
