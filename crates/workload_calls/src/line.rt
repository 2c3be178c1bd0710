//! The line that a workload ends with.

ghost use Rattle.std.specs.Prelude.{◌≡◌, IfOk};
ghost use Rattle.workload_calls.specs.Lines.{numbers_line};

use crate::replies::{Figures, Sums};
use count_lines::push_count;
use omos_base::{Bytes, NoMemory};
use std::alloc::Global;

/// `objects N images I bytes B hits H evicted E placements L version V`.
pub(crate) fn line_of(
    alloc: Global,
    n: u32,
    sums: &Sums,
    figures: &Figures,
) -> Result<Bytes, NoMemory>
    ensures { IfOk result (λ line.
        line ≡ numbers_line n sums.now.images sums.now.bytes figures.now) }
{
    let mut line = Bytes::with_capacity(alloc, 256)?;
    push_count(&mut line, b"objects ", u64::from(n))?;
    push_count(&mut line, b" images ", sums.images)?;
    push_count(&mut line, b" bytes ", sums.bytes)?;
    push_count(&mut line, b" hits ", figures.hits)?;
    push_count(&mut line, b" evicted ", figures.evicted)?;
    push_count(&mut line, b" placements ", figures.placements)?;
    push_count(&mut line, b" version ", figures.version)?;
    line.push_slice(b"\n")?;
    Ok(line)
}
