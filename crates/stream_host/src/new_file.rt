//! Files that are made under new names, with their names made stable.

use std::alloc::Global;
use std::fs::{File, OpenFile, OpenOptions};
use std::io::{ErrorKind, Write};
use std::os::unix::fs::OpenOptionsExt;
use std::rt::Files;
use std::{fs, io};
use stream_io::Readers;

/// Writes a file whole under a name at which nothing stands, as described at `write_new` of
/// `FileStore`. `AlreadyExists` means that something stands there.
pub fn write_new<R: Files>(
    rt: &R,
    alloc: Global,
    name: &str,
    bytes: &[u8],
    readers: Readers,
) -> io::Result<()> {
    if is_taken(rt, name)? {
        return Err(io::Error::from(ErrorKind::AlreadyExists));
    }
    let part = format!(in alloc; "{name}.new")?;
    write_part(rt, part.as_str(), bytes, readers)?;
    let named = give_name(rt, part.as_str(), name, bytes, readers);
    let removed = fs::remove_file(rt, part.as_str());
    named?;
    keep_name(rt, name, removed)
}

/// Whether anything stands at a name, even a folder or a dangling link.
pub fn is_taken<R: Files>(rt: &R, name: &str) -> io::Result<bool> {
    match fs::symlink_metadata(rt, name) {
        Ok(_) => Ok(true),
        Err(error) if error.kind() == ErrorKind::NotFound => Ok(false),
        Err(error) => Err(error),
    }
}

/// Writes a file under the name that it has until it is whole. If something stands there, an earlier call may have been
/// cut off, or another may be at work: so it is left alone, and the error is not `AlreadyExists`.
fn write_part<R: Files>(rt: &R, part: &str, bytes: &[u8], readers: Readers) -> io::Result<()> {
    match write_under(rt, part, bytes, readers) {
        Err(error) if error.kind() == ErrorKind::AlreadyExists => {
            Err(io::Error::from(ErrorKind::Other))
        }
        written => written,
    }
}

/// Gives a file that is whole its name, unless something stands there. If the file system has no hard links, it is
/// written anew under that name.
fn give_name<R: Files>(
    rt: &R,
    part: &str,
    name: &str,
    bytes: &[u8],
    readers: Readers,
) -> io::Result<()> {
    match fs::hard_link(rt, part, name) {
        Err(error) if has_no_links(error.kind()) => write_under(rt, name, bytes, readers),
        linked => linked,
    }
}

/// Whether an error of this kind may say that a file system has no hard links. `PermissionDenied` is `EPERM`, which
/// says so (link(2)), or `EACCES`, after which a file cannot be made under the name either.
fn has_no_links(kind: ErrorKind) -> bool {
    matches!(kind, ErrorKind::Unsupported | ErrorKind::PermissionDenied)
}

/// Makes a file, writes all bytes to it and makes them stable. If that fails, what stands of it is removed, if
/// possible.
fn write_under<R: Files>(rt: &R, name: &str, bytes: &[u8], readers: Readers) -> io::Result<()> {
    let file = make(rt, name, readers)?;
    let filled = fill(file, bytes);
    if filled.is_err() {
        let _ = fs::remove_file(rt, name);
    }
    filled
}

/// Writes all bytes to a file, and makes sure that they are on the disk.
fn fill<F: Write + OpenFile + Drop>(mut file: F, bytes: &[u8]) -> io::Result<()> {
    file.write_all(bytes)?;
    file.sync_all()
}

/// Makes an empty file under a name at which nothing stands, and opens it for reading and writing.
pub fn make<R: Files>(rt: &R, name: &str, readers: Readers) -> io::Result<R::File> {
    let mode = match readers {
        Readers::OwnerAlone => 0o600,
        Readers::Anyone => 0o666,
    };
    let mut how = OpenOptions::new();
    how.read(true).write(true).create_new(true).mode(mode);
    how.open(rt, name)
}

/// Makes the name of a new file stable, if all before it was done. Otherwise, and if that fails, the name is removed,
/// if possible.
pub fn keep_name<R: Files>(rt: &R, name: &str, done: io::Result<()>) -> io::Result<()> {
    let kept = match done {
        Ok(()) => sync_folder(rt, name),
        failed => failed,
    };
    if kept.is_err() {
        let _ = fs::remove_file(rt, name);
    }
    kept
}

/// Makes stable which names the folder of this name has.
fn sync_folder<R: Files>(rt: &R, name: &str) -> io::Result<()> {
    File::open(rt, folder_of(name))?.sync_all()
}

/// The folder in which a name stands.
pub fn folder_of(name: &str) -> &str {
    match name.rsplit_once('/') {
        Some(("", _)) => "/",
        Some((folder, _)) => folder,
        None => ".",
    }
}
