//! A row of the table.

use anyhow::{Context, Result};

/// A case: its columns, as the head of data/cases.txt explains them.
#[derive(Clone, Copy, Debug)]
pub(crate) struct Case<'a> {
    pub(crate) name: &'a str,
    pub(crate) published: &'a str,
    pub(crate) asked: &'a str,
    pub(crate) wanted: &'a str,
}

/// The next column, and what follows it.
fn column(line: &str) -> Result<(&str, &str)> {
    let (text, rest) = line.split_once('|').context("a column is missing")?;
    Ok((text.trim(), rest))
}

impl<'a> Case<'a> {
    /// The case of a row: four columns between bars.
    pub(crate) fn read(row: &'a str) -> Result<Case<'a>> {
        let (name, rest) = column(row)?;
        let (published, rest) = column(rest)?;
        let (asked, rest) = column(rest)?;
        Ok(Case {
            name,
            published,
            asked,
            wanted: rest.trim(),
        })
    }
}
