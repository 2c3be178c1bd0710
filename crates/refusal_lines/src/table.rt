//! The table of refusals: name, code and fields of each.

ghost use Rattle.std.specs.Prelude.{◌≡◌, ◌^◌, ◌<◌, ◌≤◌, ◌∷◌, [], length};
ghost use Rattle.refusal_lines.specs.Codes.{coded, path_row, object_row, text_row, link_row};
ghost use Rattle.refusal_lines.specs.Codes.{row_of, IsField};
ghost use Rattle.refusal_lines.specs.Codes as table;
ghost use Rattle.refusal_lines.specs.Rows.{coded_in, field_in, IsShortRow};

use crate::refused::Refused;
use crate::row::{Field, Fields, Row};
use omos_base::{PathFault, PathName, SymName};
use omos_model::{BpFault, ObjectFault, Refusal, Site};

/// A row without fields.
fn plain<'a>(name: &'static [u8], code: u8) -> Row<'a>
    requires { length name.now ≤ 3 }
    ensures row { coded_in result ≡ coded name.now code [] }
    ensures fits { IsShortRow result }
{
    Row {
        name,
        code,
        fields: Fields::None,
    }
}

/// A row with a number.
fn numbered<'a>(name: &'static [u8], code: u8, number: u32) -> Row<'a>
    requires { length name.now ≤ 3 }
    ensures row { coded_in result ≡ coded name.now code (table.Number number ∷ []) }
    ensures fits { IsShortRow result }
{
    Row {
        name,
        code,
        fields: Fields::One(Field::Number(number)),
    }
}

/// A row with two numbers.
fn paired<'a>(name: &'static [u8], code: u8, first: u32, second: u32) -> Row<'a>
    requires { length name.now ≤ 3 }
    ensures row { coded_in result
        ≡ coded name.now code (table.Number first ∷ table.Number second ∷ []) }
    ensures fits { IsShortRow result }
{
    Row {
        name,
        code,
        fields: Fields::Two(Field::Number(first), Field::Number(second)),
    }
}

/// A row with the name of a symbol.
fn named<'a>(name: &'static [u8], code: u8, symbol: &'a SymName) -> Row<'a>
    requires { length name.now ≤ 3 }
    ensures row { coded_in result ≡ coded name.now code (table.Symbol symbol.now ∷ []) }
    ensures fits { IsShortRow result }
{
    Row {
        name,
        code,
        fields: Fields::One(Field::Symbol(symbol.as_bytes())),
    }
}

/// A site, and the name of a symbol.
fn sited_name<'a>(name: &'static [u8], code: u8, site: &'a Site, symbol: &'a SymName) -> Row<'a>
    requires { length name.now ≤ 3 }
    ensures row { coded_in result
        ≡ coded name.now code (table.sited site.now (table.Symbol symbol.now ∷ [])) }
    ensures fits { IsShortRow result }
{
    sited(name, code, site, Field::Symbol(symbol.as_bytes()))
}

/// A site, and a path.
fn sited_path<'a>(name: &'static [u8], code: u8, site: &'a Site, path: &'a PathName) -> Row<'a>
    requires { length name.now ≤ 3 }
    ensures row { coded_in result
        ≡ coded name.now code (table.sited site.now (table.Path path.now ∷ [])) }
    ensures fits { IsShortRow result }
{
    sited(name, code, site, Field::Path(path.as_bytes()))
}

/// A site, and a field behind it.
fn sited<'a>(name: &'static [u8], code: u8, site: &'a Site, field: Field<'a>) -> Row<'a>
    requires name { length name.now ≤ 3 }
    requires value { IsField (field_in field) }
    ensures row { coded_in result
        ≡ coded name.now code (table.sited site.now (field_in field.entry ∷ [])) }
    ensures fits { IsShortRow result }
{
    fits_u32(site.node);
    let path = Field::Path(site.path.as_bytes());
    Row {
        name,
        code,
        fields: Fields::Three(path, Field::Number(site.node), field),
    }
}

/// That a number has 32 bits.
fn fits_u32(number: u32)
    ensures { number < 2 ^ 32 }
{}

/// A site alone.
fn only_site<'a>(name: &'static [u8], code: u8, site: &'a Site) -> Row<'a>
    requires { length name.now ≤ 3 }
    ensures row { coded_in result ≡ coded name.now code (table.sited site.now []) }
    ensures fits { IsShortRow result }
{
    fits_u32(site.node);
    let path = Field::Path(site.path.as_bytes());
    Row {
        name,
        code,
        fields: Fields::Two(path, Field::Number(site.node)),
    }
}

/// The row of a path that is none.
pub fn path_row<'a>(fault: PathFault) -> Row<'a>
    ensures row { coded_in result ≡ path_row fault }
    ensures fits { IsShortRow result }
{
    match fault {
        PathFault::Long => plain(b"P1", 1),
        PathFault::Shape(place) => numbered(b"P2", 2, place),
    }
}

/// The row of an object file with a fault.
pub fn object_row(fault: &ObjectFault) -> Row<'_>
    ensures row { coded_in result ≡ object_row fault.now }
    ensures fits { IsShortRow result }
{
    match fault {
        ObjectFault::Length => plain(b"O1", 11),
        ObjectFault::NotElf => plain(b"O2", 12),
        ObjectFault::Kind => plain(b"O3", 13),
        ObjectFault::Headers => plain(b"O4", 14),
        ObjectFault::Section(i) => numbered(b"O5", 15, *i),
        ObjectFault::Unsupported(i) => numbered(b"O6", 16, *i),
        ObjectFault::Symbols => plain(b"O7", 17),
        ObjectFault::Symbol(k) => numbered(b"O8", 18, *k),
        ObjectFault::Twice(name) => named(b"O9", 19, name),
        ObjectFault::Relas(i) => numbered(b"O10", 20, *i),
        ObjectFault::Rela(i, j) => paired(b"O11", 21, *i, *j),
    }
}

/// The row of a text that is none.
pub fn text_row<'a>(fault: BpFault) -> Row<'a>
    ensures row { coded_in result ≡ text_row fault }
    ensures fits { IsShortRow result }
{
    match fault {
        BpFault::Long => plain(b"B1", 31),
        BpFault::Byte(place) => numbered(b"B2", 32, place),
        BpFault::Shape(place) => numbered(b"B3", 33, place),
        BpFault::Deep(place) => numbered(b"B4", 34, place),
        BpFault::Number(place) => numbered(b"B5", 35, place),
        BpFault::Range(place) => numbered(b"B6", 36, place),
    }
}

/// The row of a link that has no image.
pub fn link_row(refusal: &Refusal) -> Row<'_>
    ensures row { coded_in result ≡ link_row refusal.now }
    ensures fits { IsShortRow result }
{
    match refusal {
        Refusal::NoEntry { site, path } => sited_path(b"L1", 41, site, path),
        Refusal::Cycle { site, path } => sited_path(b"L2", 42, site, path),
        Refusal::TooDeep { site, path } => sited_path(b"L3", 43, site, path),
        Refusal::TooLarge { site } => only_site(b"L4", 44, site),
        Refusal::Conflict { site, name } => sited_name(b"L5", 45, site, name),
        Refusal::NoName { site, name } => sited_name(b"L6", 46, site, name),
        Refusal::NoDefinition { site, name } => sited_name(b"L7", 47, site, name),
        Refusal::Taken { site, name } => sited_name(b"L8", 48, site, name),
        Refusal::ImageTooLarge { pages } => Row {
            name: b"L9",
            code: 49,
            fields: Fields::One(Field::Wide(*pages)),
        },
        Refusal::NoStart { name } => named(b"L10", 50, name),
        Refusal::Unresolved { leaf, fixup, name } => {
            let symbol = Field::Symbol(name.as_bytes());
            Row {
                name: b"L11",
                code: 51,
                fields: Fields::Three(Field::Number(*leaf), Field::Number(*fixup), symbol),
            }
        }
        Refusal::NoRoom { pages, lo, hi } => Row {
            name: b"L12",
            code: 52,
            fields: Fields::Three(Field::Number(*pages), Field::Wide(*lo), Field::Wide(*hi)),
        },
        Refusal::Overflow { leaf, fixup } => paired(b"L13", 53, *leaf, *fixup),
    }
}

/// The row of what is refused.
pub fn row_of(refused: &Refused) -> Row<'_>
    ensures row { coded_in result ≡ row_of refused.now }
    ensures fits { IsShortRow result }
{
    match refused {
        Refused::Path(fault) => path_row(*fault),
        Refused::Object(fault) => object_row(fault),
        Refused::Text(fault) => text_row(*fault),
        Refused::Link(refusal) => link_row(refusal.get()),
    }
}
