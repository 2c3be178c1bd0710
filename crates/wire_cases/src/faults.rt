//! A case of the client, with each call of what lies outside failing in turn.

use crate::client::{Case, Outcome, Outside, WELL, run, text_of};
use crate::text::bytes_of;
use anyhow::Result;
use omos_base::Bytes;
use std::alloc::Global;

/// What a run that fails leaves: so many bytes sent and printed, and this in the file.
#[derive(Clone, Copy)]
struct Left<'a> {
    sent: usize,
    printed: usize,
    file: &'a Option<Bytes>,
}

/// A case and its run in which nothing fails.
#[derive(Clone, Copy)]
struct Whole<'a> {
    case: &'a Case<'a>,
    run: &'a Outcome,
    /// What the file held before.
    file: &'a Option<Bytes>,
}

fn is_file(file: &Option<Bytes>, other: &Option<Bytes>) -> bool {
    match (file, other) {
        (Some(file), Some(other)) => file.as_slice() == other.as_slice(),
        (None, None) => true,
        _ => false,
    }
}

/// The run left what it may leave, and nothing else.
fn leaves(run: &Outcome, whole: &Outcome, left: Left<'_>) -> bool {
    whole.sent.bytes().get(..left.sent) == Some(run.sent.bytes())
        && whole.printed.bytes().get(..left.printed) == Some(run.printed.bytes())
        && is_file(&run.file, left.file)
}

/// What a run leaves that has the status of the one in which nothing fails.
fn all_of(whole: &Outcome) -> Left<'_> {
    Left {
        sent: whole.sent.bytes().len(),
        printed: whole.printed.bytes().len(),
        file: &whole.file,
    }
}

/// Adds a run's status as a hexadecimal digit, and a mark where it left something else.
fn add(
    alloc: Global,
    line: &mut String,
    whole: Whole<'_>,
    run: &Outcome,
    left: Left<'_>,
) -> Result<()> {
    let is_whole = run.status == whole.run.status;
    let left = if is_whole { all_of(whole.run) } else { left };
    let mark = if leaves(run, whole.run, left) {
        ""
    } else {
        "!"
    };
    line.push_str(&format!(in alloc; "{:x}{mark}", run.status)?)?;
    Ok(())
}

/// Runs the case, and adds its status.
fn turn(
    alloc: Global,
    line: &mut String,
    whole: Whole<'_>,
    outside: Outside,
    left: Left<'_>,
) -> Result<()> {
    add(alloc, line, whole, &run(alloc, whole.case, outside)?, left)
}

/// How many calls are to fail in turn for so many bytes.
fn calls(size: usize) -> u32 {
    size.min(4_096) as u32
}

/// Each read fails in turn, and one behind the last.
fn reads(alloc: Global, line: &mut String, whole: Whole<'_>, size: usize) -> Result<()> {
    let left = Left {
        printed: 0,
        file: whole.file,
        ..all_of(whole.run)
    };
    line.push_str("; reads ")?;
    for call in 0..=calls(size) {
        let read = call.saturating_add(1);
        turn(alloc, line, whole, Outside { read, ..WELL }, left)?;
    }
    Ok(())
}

/// The link ends in turn before each byte, and behind all.
fn ends(alloc: Global, line: &mut String, whole: Whole<'_>, size: usize) -> Result<()> {
    let left = Left {
        printed: 0,
        file: whole.file,
        ..all_of(whole.run)
    };
    line.push_str("; ends ")?;
    for comes in 0..=size.min(4_096) {
        turn(alloc, line, whole, Outside { comes, ..WELL }, left)?;
    }
    Ok(())
}

/// Each write to the link fails in turn, and one behind the last.
fn writes(alloc: Global, line: &mut String, whole: Whole<'_>) -> Result<()> {
    line.push_str("; writes ")?;
    for sent in 0..=calls(whole.run.sent.bytes().len()) {
        let left = Left {
            sent: sent as usize,
            printed: 0,
            file: whole.file,
        };
        let write = sent.saturating_add(1);
        turn(alloc, line, whole, Outside { write, ..WELL }, left)?;
    }
    Ok(())
}

/// Each write to the output fails in turn, and one behind the last.
fn prints(alloc: Global, line: &mut String, whole: Whole<'_>) -> Result<()> {
    line.push_str("; prints ")?;
    for printed in 0..=calls(whole.run.printed.bytes().len()) {
        let left = Left {
            printed: printed as usize,
            ..all_of(whole.run)
        };
        let print = printed.saturating_add(1);
        turn(alloc, line, whole, Outside { print, ..WELL }, left)?;
    }
    Ok(())
}

/// The first call of the files fails, before anything is sent or after all is.
fn files(alloc: Global, line: &mut String, whole: Whole<'_>) -> Result<()> {
    line.push_str("; files ")?;
    let run = run(alloc, whole.case, Outside { file: 1, ..WELL })?;
    let left = Left {
        sent: run.sent.bytes().len(),
        printed: 0,
        file: &run.file,
    };
    add(alloc, line, whole, &run, left)
}

/// The line of a case: what came of it where nothing fails; and the statuses, a hexadecimal digit
/// each, where each read, each byte that comes, each write, each print and the first call of the
/// files fails in turn.
pub(crate) fn turns(alloc: Global, case: &Case<'_>) -> Result<String> {
    let well = run(alloc, case, WELL)?;
    let file = case.file(alloc)?;
    let whole = Whole {
        case,
        run: &well,
        file: &file,
    };
    let size = bytes_of(alloc, case.incoming)?.len();
    let mut line = text_of(alloc, &well)?;
    reads(alloc, &mut line, whole, size)?;
    ends(alloc, &mut line, whole, size)?;
    writes(alloc, &mut line, whole)?;
    prints(alloc, &mut line, whole)?;
    files(alloc, &mut line, whole)?;
    Ok(line)
}
