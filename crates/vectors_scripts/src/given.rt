//! The words of a text, and files of the system.

use crate::scene::Files;
use std::alloc::{AllocError, Global};
use std::io::{self, ErrorKind};
use stream_host::FileStore;
use stream_io::Store;

/// No file that is read from the system is longer.
const FILE_LIMIT: u64 = 1 << 26;

/// Adds a word. Two quotation marks are a word with nothing in it.
fn add_word(alloc: Global, words: &mut Vec<String>, word: &str) -> Result<(), AllocError> {
    let word = if word == "\"\"" { "" } else { word };
    Ok(words.push(String::from_str(alloc, word)?)?)
}

/// The words of a text, with a space between each two.
pub fn words_of(alloc: Global, text: &str) -> Result<Vec<String>, AllocError> {
    let mut words = Vec::new(alloc);
    for word in text.split(' ') {
        add_word(alloc, &mut words, word)?;
    }
    Ok(words)
}

/// The bytes of a file of the system.
fn read(rt: HostRuntime, name: &str) -> io::Result<Vec<u8>> {
    match FileStore::new(rt).read_all(rt.alloc(), name, FILE_LIMIT) {
        Ok(bytes) => Ok(bytes),
        Err(_) => Err(io::Error::from(ErrorKind::NotFound)),
    }
}

/// Adds a file of this name and these bytes.
pub fn push_file(
    alloc: Global,
    files: &mut Files,
    name: &str,
    bytes: Vec<u8>,
) -> Result<(), AllocError> {
    let name = String::from_str(alloc, name)?;
    Ok(files.push((name, bytes))?)
}

/// Adds a file of the system.
fn add_file(rt: HostRuntime, files: &mut Files, name: &str) -> io::Result<()> {
    let bytes = read(rt, name)?;
    Ok(push_file(rt.alloc(), files, name, bytes)?)
}

/// Adds the files of the system of these names, each on a line of its own.
fn add_files(rt: HostRuntime, files: &mut Files, names: &str) -> io::Result<()> {
    for name in names.lines() {
        add_file(rt, files, name)?;
    }
    Ok(())
}

/// The files of the system that a file names, each on a line of its own.
pub(crate) fn read_all(rt: HostRuntime, index: &str) -> io::Result<Files> {
    let names = read(rt, index)?;
    let names = String::from_utf8_lossy(rt.alloc(), &names)?;
    let mut files = Vec::new(rt.alloc());
    add_files(rt, &mut files, &names)?;
    Ok(files)
}
