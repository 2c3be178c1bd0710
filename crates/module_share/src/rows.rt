//! The references of a further table, leaf by leaf.

ghost use Rattle.std.specs.Prelude.{◌≡◌, map, IfOk};
ghost use Rattle.module_share.specs.Shifted.{shifted_mark, shifted_row};

use crate::numbers;
use dict_row::DictRow;
use omos_base::{NoMemory, Row};
use omos_model::{Mark, MarkRow};
use std::alloc::Global;

fn values(alloc: Global, values: &[Mark], shift: u32) -> Result<Row<Mark>, NoMemory>
    ensures { IfOk result (λ ms. ms ≡ map (shifted_mark shift) values.now) }
{
    let mut copies = Row::from_vec(Vec::with_capacity(alloc, values.len())?);
    for mark in values {
        copies.push(numbers::mark(mark, shift)?)?;
    }
    Ok(copies)
}

/// The references of a leaf. They share the keys.
fn marks(alloc: Global, marks: &DictRow<Mark>, shift: u32) -> Result<DictRow<Mark>, NoMemory>
    ensures { IfOk result (λ ms. ms ≡ map (shifted_mark shift) marks.now) }
{
    let parts = marks.parts();
    let copies = values(alloc, parts.values, shift)?;
    Ok(DictRow::of(parts.keys.twin()?, copies))
}

fn row(alloc: Global, row: &MarkRow, shift: u32) -> Result<MarkRow, NoMemory>
    ensures { IfOk result (λ r. r ≡ shifted_row shift row.now) }
{
    Ok(MarkRow {
        number: numbers::raised(row.number, shift),
        entry: row.entry.twin()?,
        marks: marks(alloc, &row.marks, shift)?,
    })
}

/// The leaves, with raised numbers. Their objects are shared.
pub fn raised(alloc: Global, rows: &[MarkRow], shift: u32) -> Result<Vec<MarkRow>, NoMemory>
    ensures { IfOk result (λ rs. rs.items ≡ map (shifted_row shift) rows.now) }
{
    let mut copies = Vec::with_capacity(alloc, rows.len())?;
    for leaf in rows {
        copies.push(row(alloc, leaf, shift)?)?;
    }
    Ok(copies)
}
