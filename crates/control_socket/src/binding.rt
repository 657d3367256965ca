//! Makes the control socket at a path.
ghost use Rattle.std.specs.Prelude.{◌≡◌};
ghost use Rattle.control_socket.specs.Places.{directory_fault, owner_fault};

use crate::fault::ControlFault;
use crate::socket::ControlSocket;
use std::fs::{self, Permissions};
use std::io::ErrorKind;
use std::net::Net;
use std::os::unix::fs::{FileTypeExt, MetadataExt, PermissionsExt};
use std::os::unix::net::UnixListener;
use std::path::Path;
use std::rt::Files;
use wire_core::TaskStart;

// The mode of the socket: its owner alone may connect to it.
const SOCKET_MODE: u32 = 0o600;

// The mode of its directory: its owner alone may read, write and enter it.
const DIRECTORY_MODE: u32 = 0o700;

// The bits of a file's mode that say who may do what, with those of its user, its group and its deletion.
const MODE_BITS: u32 = 0o7777;

// What the system says of this process.
const OWN_PROCESS: &str = "/proc/self";

/// Makes the control socket at a path, for its owner alone. Its directory has to be that of the user by
/// whom the agent runs, with exactly the mode 700: else nothing is removed or made. A socket at which
/// nobody answers any more is removed first. Its task has such a part in the agent's start.
///
/// # Errors
/// Why there is none.
pub fn bind_control<R: Files + Net, C: Drop>(
    rt: &R,
    clock: C,
    path: &str,
    start: TaskStart,
) -> Result<ControlSocket<C>, ControlFault> {
    if let Some(fault) = owner_fault(owner_of_directory(rt, path)?, own_user(rt)?) {
        return Err(fault);
    }
    clear_place(rt, path)?;
    let listener = UnixListener::bind(rt, path)?;
    fs::set_permissions(rt, path, Permissions::from_mode(SOCKET_MODE))?;
    ControlSocket::new(listener, clock, start)
}

// The user by whom the agent runs: the owner of what the system says of this process.
fn own_user<R: Files>(rt: &R) -> Result<u32, ControlFault> {
    Ok(fs::metadata(rt, OWN_PROCESS)?.uid())
}

// The user whose directory it is in which a path is, if it is closed to all others.
fn owner_of_directory<R: Files>(rt: &R, path: &str) -> Result<u32, ControlFault> {
    let found = match Path::new(path).parent() {
        Some(directory) if !directory.as_str().is_empty() => {
            fs::symlink_metadata(rt, directory.as_str())?
        }
        _ => fs::symlink_metadata(rt, ".")?,
    };
    match directory_fault(found.is_dir(), found.mode()) {
        None => Ok(found.uid()),
        Some(fault) => Err(fault),
    }
}

// What is wrong with what a socket is to be in, by whether it is a directory, and by its mode, whose twelve
// lowest bits say who may do what there: they have to be 700.
fn directory_fault(is_directory: bool, mode: u32) -> Option<ControlFault>
    ensures { result ≡ directory_fault is_directory mode }
{
    if !is_directory {
        return Some(ControlFault::NoDirectory);
    }
    if mode & MODE_BITS != DIRECTORY_MODE {
        return Some(ControlFault::OpenDirectory);
    }
    None
}

// What is wrong with a directory of this user, where the agent runs by another, or by the same.
fn owner_fault(owner: u32, user: u32) -> Option<ControlFault>
    ensures { result ≡ owner_fault owner user }
{
    if owner == user {
        None
    } else {
        Some(ControlFault::OtherOwner)
    }
}

// Removes a socket at which nobody answers any more.
fn clear_place<R: Files + Net>(rt: &R, path: &str) -> Result<(), ControlFault> {
    let found = match fs::symlink_metadata(rt, path) {
        Ok(found) => found,
        Err(error) if error.kind() == ErrorKind::NotFound => return Ok(()),
        Err(error) => return Err(ControlFault::System(error)),
    };
    if !found.file_type().is_socket() {
        return Err(ControlFault::OtherFile);
    }
    // (where as many wait as the system lets, the agent that is there answers later)
    match mio::net::UnixStream::connect(rt, path) {
        Err(error) if error.kind() == ErrorKind::ConnectionRefused => {
            fs::remove_file(rt, path)?;
            Ok(())
        }
        Ok(_) | Err(_) => Err(ControlFault::InUse),
    }
}
