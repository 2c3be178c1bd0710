//! Socket files: listening at one, and connecting to one.
//!
//! Nothing here guards against two servers that start on one path in the same moment.

use crate::line::{LineSink, LineSource, halves};
use std::fs;
use std::fs::Permissions;
use std::io::{ErrorKind, Result};
use std::net::Net;
use std::os::unix::fs::{FileTypeExt, PermissionsExt};
use std::os::unix::net::{UnixListener, UnixStream};
use std::rt::Files;

/// The mode of a socket file: its owner's alone.
const OWNERS_MODE: u32 = 0o600;

/// Listens at a path. A socket file that no server answers at is replaced, as a server leaves it
/// that died; one that a server answers at isn't, and no file of another kind is. Only its owner
/// may connect to it, once this call has returned.
pub fn listen<R: Files + Net>(rt: &R, path: &str) -> Result<UnixListener> {
    let listener = match UnixListener::bind(rt, path) {
        Err(error) if error.kind() == ErrorKind::AddrInUse && is_left_over(rt, path) => {
            fs::remove_file(rt, path)?;
            UnixListener::bind(rt, path)
        }
        answer => answer,
    }?;
    fs::set_permissions(rt, path, Permissions::from_mode(OWNERS_MODE))?;
    Ok(listener)
}

/// The file at the path is a socket at which no server answers.
fn is_left_over<R: Files + Net>(rt: &R, path: &str) -> bool {
    match fs::symlink_metadata(rt, path) {
        Ok(found) if found.file_type().is_socket() => match UnixStream::connect(rt, path) {
            Ok(_) => false,
            Err(error) => error.kind() == ErrorKind::ConnectionRefused,
        },
        _ => false,
    }
}

/// Connects to the server that listens at the path.
pub fn connect<R: Net>(rt: &R, path: &str) -> Result<(LineSource, LineSink)> {
    halves(UnixStream::connect(rt, path)?)
}

/// Removes a socket file, as a server does that ends.
pub fn remove_socket<R: Files>(rt: &R, path: &str) {
    let _ = fs::remove_file(rt, path);
}
