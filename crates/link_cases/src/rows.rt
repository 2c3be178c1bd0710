//! The rows of the table.

use anyhow::{Context, Result};
use std::alloc::Global;

/// The rows of a table: its lines, but for empty ones and those that begin with `#`. A line that
/// begins with two blanks goes on with the row before it, behind one blank.
pub(crate) fn rows_of(alloc: Global, table: &str) -> Result<Vec<String>> {
    let mut rows: Vec<String> = Vec::new(alloc);
    for line in table.lines() {
        if line.is_empty() || line.starts_with('#') {
            continue;
        }
        if line.starts_with("  ") {
            let row = rows.last_mut().context(line)?;
            row.push(' ')?;
            row.push_str(line.trim_start())?;
        } else {
            rows.push(String::from_str(alloc, line)?)?;
        }
    }
    Ok(rows)
}
