//! Tests of the store of files over the files of the machine.

use crate::scripts::none_wrong;
use crate::scripts::store_calls::stores;
use std::alloc::Global;
use std::os::unix::fs::{FileExt, MetadataExt, symlink};
use std::rt::Files;
use std::{fs, io};
use stream_host::{FileStore, Lockable};
use stream_io::{Readers, Store};

/// The permissions of a file.
fn mode(rt: &HostRuntime, name: &str) -> io::Result<u32> {
    Ok(fs::metadata(rt, name)?.mode() & 0o777)
}

/// What is out while a script is done.
#[derive(Clone, Copy)]
pub(crate) enum Out {
    Nothing,
    Disk,
    View,
}

/// What is out meanwhile, and what is done with a store.
pub(crate) type Step = (Out, &'static str);

/// What is done with the store, in which `any`, `test` and `left.new` are files, and `link` leads nowhere.
static STEPS: [Step; 6] = [
    // It takes a new file once.
    (
        Out::Nothing,
        "no has own; ok secret own first; yes has own; exists secret own second; ok read own 9 first; \
     no has own.new; ok faults 0",
    ),
    (
        Out::Nothing,
        "no has ./all; ok new ./all first; yes has ./all; exists new ./all second; ok read ./all 9 first; \
     ok faults 0",
    ),
    // Whatever stands at a name takes it, and a file that was left there is let alone.
    (
        Out::Nothing,
        "yes has link; exists new link first; yes has .; exists new . first; ok faults 0; \
     no has left; failed new left first; ok faults 1; ok read left.new 9 left; \
     no has none/new; failed new none/new first; ok faults 2",
    ),
    // It reads files.
    (
        Out::Nothing,
        "ok read test 5 first; ok read test 18446744073709551615 first; long read test 4 5; ok faults 2; \
     failed read none 4; ok faults 3; failed read . 4096; ok faults 4",
    ),
    // Nobody else gets a disk that is out, and several views of it may be out at once.
    (
        Out::Disk,
        "failed write disk 0 abc; exists make disk abc; ok faults 5",
    ),
    (
        Out::View,
        "ok look disk 0; ok write disk 0 abc; ok look disk 3 abc; ok faults 5; ok disks 0",
    ),
];

/// Does the calls of a script while a disk of a new name is out, which is never given back.
fn beside_disk<S: Store>(store: &mut S, alloc: Global, script: &'static str) -> &'static str
where
    S::Disk: Drop,
{
    match store.new_disk(alloc, "disk", 3, Readers::OwnerAlone) {
        Ok(_disk) => stores(store, alloc, script),
        Err(_) => "a new disk",
    }
}

/// Does the calls of a script while a view is out.
fn beside_view<S: Store>(store: &mut S, alloc: Global, script: &'static str) -> &'static str
where
    S::View: Drop,
{
    match store.view(alloc, "disk") {
        Ok(_view) => stores(store, alloc, script),
        Err(_) => "a view",
    }
}

/// Does all of this with a store, and returns the first that went wrong, or nothing.
fn wrong_of<S: Store>(store: &mut S, alloc: Global, steps: &[Step]) -> &'static str
where
    S::Disk: Drop,
    S::View: Drop,
{
    for (out, script) in steps {
        let wrong = match *out {
            Out::Nothing => stores(store, alloc, script),
            Out::Disk => beside_disk(store, alloc, script),
            Out::View => beside_view(store, alloc, script),
        };
        if !wrong.is_empty() {
            return wrong;
        }
    }
    ""
}

/// Does all of this with a store of files, whose calls are proved for any runtime at once, and returns the first that
/// went wrong, or nothing.
pub(crate) fn wrong_in<R: Files + Drop>(rt: R, alloc: Global, steps: &[Step]) -> &'static str
where
    R::File: FileExt + Lockable + Send,
{
    wrong_of(&mut FileStore::new(rt), alloc, steps)
}

/// Makes what the store finds.
fn prepare(rt: &HostRuntime) -> io::Result<()> {
    fs::write(rt, "any", "")?;
    fs::write(rt, "test", "first")?;
    fs::write(rt, "left.new", "left")?;
    symlink(rt, "none", "link")
}

/// The names of everything that is there in the end.
const NAMES: [&'static str; 7] = ["any", "test", "left.new", "link", "own", "all", "disk"];

/// Removes them.
fn remove(rt: &HostRuntime) -> io::Result<()> {
    for name in &NAMES {
        fs::remove_file(rt, name)?;
    }
    Ok(())
}

/// Whether the owner's own files may be read by nobody else, and a new one by the same readers as any file.
fn has_modes(rt: &HostRuntime) -> io::Result<bool> {
    let own = [mode(rt, "own")?, mode(rt, "disk")?];
    let is_any = mode(rt, "all")? == mode(rt, "any")?;
    Ok(is_any && own[0] == 0o600 && own[1] == 0o600)
}

/// A store of the machine's files.
#[test]
fn a_store_of_files_is_the_machine_s(rt: HostRuntime) -> io::Result<()> {
    prepare(&rt)?;
    none_wrong(&rt, wrong_in(rt, rt.alloc(), &STEPS), "a store");
    assert!(rt; has_modes(&rt)?, "modes");
    remove(&rt)
}
