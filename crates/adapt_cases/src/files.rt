//! Files that are read and written whole.

use crate::report;
use anyhow::Result;
use omos_adapt::RealFiles;
use omos_files::{FileBox, FileRead, FileWrote};
use std::fs;
use std::fs::Permissions;
use std::os::unix::fs::{PermissionsExt, symlink};

const MADE: &str = "made";

const LINK: &str = "link";

/// The read gave just these bytes.
fn is_whole(read: &FileRead, bytes: &[u8]) -> bool {
    match read {
        FileRead::Whole(all) => all.as_slice() == bytes,
        _ => false,
    }
}

/// Who may do what with the file, as it is.
fn mode_of(rt: &HostRuntime, name: &str) -> Result<u32> {
    Ok(fs::metadata(rt, name)?.permissions().mode() & 0o777)
}

/// Removes what the cases make.
fn clear(rt: &HostRuntime) {
    let _ = fs::remove_file(rt, MADE);
    let _ = fs::remove_file(rt, LINK);
}

/// A file is made, read and replaced.
fn regular(rt: &HostRuntime, files: &mut RealFiles<'_, HostRuntime>) -> Result<()> {
    let absent = files.read_all(MADE, 10);
    report(
        rt,
        "a file that isn't there isn't read",
        matches!(absent, FileRead::Failed),
    )?;
    let made = files.write_all(MADE, b"one");
    report(rt, "a file is made", made == FileWrote::Done)?;
    let read = files.read_all(MADE, 3);
    report(rt, "it is read at its limit", is_whole(&read, b"one"))?;
    let long = files.read_all(MADE, 2);
    report(
        rt,
        "a longer one is too long",
        matches!(long, FileRead::TooLong),
    )?;
    fs::set_permissions(rt, MADE, Permissions::from_mode(0o640))?;
    let replaced = files.write_all(MADE, b"two more");
    report(rt, "it is replaced", replaced == FileWrote::Done)?;
    let again = files.read_all(MADE, 100);
    report(rt, "it holds the new bytes", is_whole(&again, b"two more"))?;
    report(rt, "it keeps its mode", mode_of(rt, MADE)? == 0o640)
}

/// A link is followed, also to a file that isn't there.
fn links(rt: &HostRuntime, files: &mut RealFiles<'_, HostRuntime>) -> Result<()> {
    symlink(rt, MADE, LINK)?;
    let through = files.write_all(LINK, b"three");
    report(rt, "a link is written through", through == FileWrote::Done)?;
    let read = files.read_all(MADE, 100);
    report(
        rt,
        "the file behind it holds the bytes",
        is_whole(&read, b"three"),
    )?;
    let found = fs::symlink_metadata(rt, LINK)?.is_symlink();
    report(rt, "the link stays one", found)?;
    fs::remove_file(rt, MADE)?;
    let nowhere = files.write_all(LINK, b"four");
    report(
        rt,
        "a link that leads nowhere makes its file",
        nowhere == FileWrote::Done,
    )?;
    let made = files.read_all(MADE, 100);
    report(rt, "that file holds the bytes", is_whole(&made, b"four"))
}

/// Devices and folders.
fn others(rt: &HostRuntime, files: &mut RealFiles<'_, HostRuntime>) -> Result<()> {
    let null = files.write_all("/dev/null", b"five");
    report(rt, "a device is written in place", null == FileWrote::Done)?;
    let full = files.write_all("/dev/full", b"six");
    report(rt, "a full device fails", full == FileWrote::Failed)?;
    let zero = files.read_all("/dev/zero", 100_000);
    report(
        rt,
        "an endless device is too long",
        matches!(zero, FileRead::TooLong),
    )?;
    let folder = files.read_all(".", 10);
    report(
        rt,
        "a folder isn't read",
        matches!(folder, FileRead::Failed),
    )?;
    let over = files.write_all(".", b"seven");
    report(rt, "a folder isn't written", over == FileWrote::Failed)?;
    let lost = files.write_all("no_folder/made", b"eight");
    report(
        rt,
        "a file in no folder isn't written",
        lost == FileWrote::Failed,
    )?;
    let left = fs::exists(rt, ".omos-0")?;
    report(rt, "no other file is left", !left)
}

pub(crate) fn run(rt: &HostRuntime) -> Result<()> {
    clear(rt);
    let mut files = RealFiles::new(rt, rt.alloc());
    regular(rt, &mut files)?;
    links(rt, &mut files)?;
    others(rt, &mut files)?;
    clear(rt);
    Ok(())
}
