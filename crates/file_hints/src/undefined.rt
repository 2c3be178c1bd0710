//! The names that an object leaves to others.

use crate::elf::{symbol, symbol_name, symbol_table};
use std::fmt;

const STB_GLOBAL: u8 = 1;

/// The names that are global and undefined in an object, but for one. It prints the first two and
/// how many there are beside them.
#[derive(Drop)]
pub(crate) struct Undefined<'a> {
    pub(crate) file: &'a [u8],
    pub(crate) known: &'a str,
}

/// The name of a symbol of this number, where it is global and undefined.
fn undefined_at(file: &[u8], number: u32) -> Option<&str> {
    let table = symbol_table(file)?;
    let symbol = symbol(file, &table, number)?;
    if symbol.st_info / 16 != STB_GLOBAL || symbol.st_shndx != 0 {
        return None;
    }
    symbol_name(file, &table, &symbol)
}

impl Undefined<'_> {
    /// How many symbols there are.
    fn symbols(&self) -> u32 {
        match symbol_table(self.file) {
            Some(table) => (table.sh_size / 24).min(65_536) as u32,
            None => 0,
        }
    }

    /// The name of a symbol of this number, where it is one of them.
    fn at(&self, number: u32) -> Option<&str> {
        undefined_at(self.file, number).filter(|name| *name != self.known)
    }

    /// How many there are.
    pub(crate) fn count(&self) -> u32 {
        let mut count = 0u32;
        for number in 1..self.symbols() {
            if self.at(number).is_some() {
                count = count.saturating_add(1);
            }
        }
        count
    }
}

impl fmt::Display for Undefined<'_> {
    fn fmt<W: fmt::Write>(&self, f: &mut fmt::Formatter<W>) -> fmt::Result {
        let mut shown = 0u32;
        for number in 1..self.symbols() {
            if let Some(name) = self.at(number) {
                shown = shown.saturating_add(1);
                match shown {
                    1 => write!(f, "`{name}`")?,
                    2 | 3 => write!(f, ", `{name}`")?,
                    _ => {}
                }
            }
        }
        if shown > 3 {
            let more = shown.saturating_sub(3);
            write!(f, " and {more} more")?;
        }
        Ok(())
    }
}
