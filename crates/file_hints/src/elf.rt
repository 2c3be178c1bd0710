//! Reads single records and names of a file that may be no object, or a damaged one (System V gABI,
//! chapter 4).

ghost use Rattle.std.specs.Prelude.{◌≡◌, ◌+◌, ◌<◌, length, take, drop, IfSome, MatchOption};

use elf_words::{Ehdr, Record, Rela, Shdr, Sym};

/// The number of the first symbol table's kind of section.
const SHT_SYMTAB: u32 = 2;

/// The name that stands for one that can't be read.
pub(crate) const UNREAD: &str = "";

/// The record of so many bytes at a place, where it lies in the file.
fn record_at<R: Record>(file: &[u8], place: u64, size: u64) -> Option<R>
    requires { size ≡ R.SIZE }
    ensures { MatchOption result (length file.now < place + size)
        (λ found. found ≡ R.record_at file.now place) }
{
    match place.checked_add(size) {
        Some(end) if end <= file.len() as u64 => Some(R::read_at(file, place as usize)),
        _ => None,
    }
}

/// The file's header.
pub(crate) fn header(file: &[u8]) -> Option<Ehdr> {
    record_at(file, 0, 64)
}

/// The header of a section.
pub(crate) fn section(file: &[u8], number: u32) -> Option<Shdr> {
    let header = header(file)?;
    if number >= u32::from(header.e_shnum) {
        return None;
    }
    record_at(
        file,
        header.e_shoff.checked_add(64 * u64::from(number))?,
        64,
    )
}

/// The bytes of a section, where they lie in the file.
fn bytes_of<'a>(file: &'a [u8], section: &Shdr) -> Option<&'a [u8]>
    ensures { MatchOption result (length file.now < section.now.sh_offset + section.now.sh_size)
        (λ bytes. bytes.now ≡ take section.now.sh_size (drop section.now.sh_offset file.now)) }
{
    let end = section.sh_offset.checked_add(section.sh_size)?;
    if end > file.len() as u64 {
        return None;
    }
    let (front, _) = file.split_at(end as usize);
    Some(front.split_at(section.sh_offset as usize).1)
}

/// The text that begins at a place of a table of strings, and ends before the next zero byte.
fn text_at(strings: &[u8], place: u32) -> Option<&str> {
    if place as usize >= strings.len() {
        return None;
    }
    let (_, rest) = strings.split_at(place as usize);
    let length = rest.iter().position(|byte| *byte == 0)?;
    str::from_utf8(rest.split_at(length).0).ok()
}

/// The text at a place of the table of strings in a section of this number.
fn text_in(file: &[u8], strings: u32, place: u32) -> Option<&str> {
    let strings = section(file, strings)?;
    text_at(bytes_of(file, &strings)?, place)
}

/// The name of a section.
pub(crate) fn section_name(file: &[u8], number: u32) -> Option<&str> {
    let strings = u32::from(header(file)?.e_shstrndx);
    text_in(file, strings, section(file, number)?.sh_name)
}

/// The header of the first symbol table.
pub(crate) fn symbol_table(file: &[u8]) -> Option<Shdr> {
    let count = header(file)?.e_shnum;
    for number in 0..u32::from(count) {
        if let Some(header) = section(file, number) {
            if header.sh_type == SHT_SYMTAB {
                return Some(header);
            }
        }
    }
    None
}

/// A symbol of a table.
pub(crate) fn symbol(file: &[u8], table: &Shdr, number: u32) -> Option<Sym> {
    let place = 24 * u64::from(number);
    if place >= table.sh_size {
        return None;
    }
    record_at(file, table.sh_offset.checked_add(place)?, 24)
}

/// The name of a symbol. A section's own symbol has none of its own, and goes by the section's.
pub(crate) fn symbol_name<'a>(file: &'a [u8], table: &Shdr, symbol: &Sym) -> Option<&'a str> {
    let name = text_in(file, table.sh_link, symbol.st_name)?;
    if name.is_empty() {
        return section_name(file, u32::from(symbol.st_shndx));
    }
    Some(name)
}

/// An entry of a relocation section.
pub(crate) fn relocation(file: &[u8], section: &Shdr, number: u32) -> Option<Rela> {
    let place = 24 * u64::from(number);
    if place >= section.sh_size {
        return None;
    }
    record_at(file, section.sh_offset.checked_add(place)?, 24)
}
