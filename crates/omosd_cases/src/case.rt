//! A line of the table.

use anyhow::{Context, Result};

/// A case: its columns, as the head of data/cases.txt explains them.
#[derive(Clone, Copy, Debug)]
pub(crate) struct Case<'a> {
    pub(crate) name: &'a str,
    pub(crate) words: &'a str,
    pub(crate) input: &'a str,
    pub(crate) reads: &'a str,
    pub(crate) writes: &'a str,
    pub(crate) status: &'a str,
    pub(crate) output: &'a str,
}

/// The next column, and what follows it.
fn column(line: &str) -> Result<(&str, &str)> {
    let (text, rest) = line.split_once('|').context("a column is missing")?;
    Ok((text.trim(), rest))
}

impl<'a> Case<'a> {
    /// The case of a line: seven columns between bars.
    pub(crate) fn read(line: &'a str) -> Result<Case<'a>> {
        let (name, rest) = column(line)?;
        let (words, rest) = column(rest)?;
        let (input, rest) = column(rest)?;
        let (reads, rest) = column(rest)?;
        let (writes, rest) = column(rest)?;
        let (status, rest) = column(rest)?;
        Ok(Case {
            name,
            words,
            input,
            reads,
            writes,
            status,
            output: rest.trim(),
        })
    }
}
