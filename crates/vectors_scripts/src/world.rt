//! What a script works on: files by their names, a store and links in memory, and what is to be printed.

use crate::scene::{Files, LINE, held, net_at_here, store_of};
use disk_trait::MemDisk;
use std::alloc::{AllocError, Global};
use std::fmt::Write;
use std::mem;
use stream_memory::{MemNet, MemStore, PortScript};

/// What a script works on.
#[derive(Drop)]
pub struct World {
    /// The memory that all of it takes.
    pub alloc: Global,
    /// Files that are there from the start.
    given: Files,
    /// Files that lines name: those that were made or kept, and those from the start that were used.
    pub(crate) files: Files,
    /// The disks of the store that is made next.
    pub(crate) disks: Vec<(String, MemDisk)>,
    /// The store that commands run over.
    pub store: MemStore,
    /// The ports of the next run.
    pub(crate) ports: Vec<PortScript>,
    /// The net of the last run.
    pub(crate) net: MemNet,
    /// For how many bytes a link has room, how many one write to it takes, and room for what a command prints.
    pub(crate) rooms: (usize, usize, usize),
    /// What lines have printed, and what was printed in the turn before.
    pub(crate) page: String,
    last: String,
    /// What the parts of the script have printed.
    said: String,
    /// Whether a line was found wrong.
    pub(crate) wrong: bool,
}

/// A world with these files from the start, and nothing else in it.
pub(crate) fn new_world(alloc: Global, given: Files) -> Result<World, AllocError> {
    let store = store_of(alloc, Vec::new(alloc), &[])?;
    let net = held(net_at_here(alloc, Vec::new(alloc)))?;
    Ok(World {
        alloc,
        given,
        files: Vec::new(alloc),
        disks: Vec::new(alloc),
        store,
        ports: Vec::new(alloc),
        net,
        rooms: (8192, 4096, LINE),
        page: String::new(alloc),
        last: String::new(alloc),
        said: String::new(alloc),
        wrong: false,
    })
}

/// The bytes of the last file of this name.
fn last_of<'a>(files: &'a Files, name: &str) -> Option<&'a [u8]> {
    let file = files.iter().rev().find(|file| file.0.as_str() == name)?;
    Some(file.1.as_slice())
}

/// Adds what the turn of this number printed.
fn push_turn(said: &mut String, call: usize, page: &str) -> Result<(), AllocError> {
    write!(said, "from {call}:\n{page}")
}

impl World {
    /// The number that a word is. If it is none, the line is wrong.
    pub(crate) fn number(&mut self, word: &str) -> usize {
        match word.parse() {
            Ok(number) => number,
            Err(_) => {
                self.wrong = true;
                0
            }
        }
    }

    /// The bytes of the file of this name: the last that was made, kept or used, or else one of the store.
    pub(crate) fn find(&self, name: &str) -> Option<&[u8]> {
        last_of(&self.files, name).or_else(|| self.store.bytes(name))
    }

    /// The same, or nothing if there is no such file.
    pub(crate) fn bytes(&self, name: &str) -> &[u8] {
        self.find(name).unwrap_or_default()
    }

    /// Keeps a file under this name, ahead of those that have it already.
    pub(crate) fn put(&mut self, name: &str, bytes: Vec<u8>) -> Result<(), AllocError> {
        let name = String::from_str(self.alloc, name)?;
        Ok(self.files.push((name, bytes))?)
    }

    /// Makes sure that the file of this name is found: if it was not made or kept, and is not in the store, it is one
    /// of those that are there from the start. If it is nowhere, the line is wrong.
    pub(crate) fn load(&mut self, name: &str) -> Result<(), AllocError> {
        if self.find(name).is_some() {
            return Ok(());
        }
        match last_of(&self.given, name) {
            Some(bytes) => {
                let bytes = Vec::from_slice(self.alloc, bytes)?;
                self.put(name, bytes)
            }
            None => {
                self.wrong = true;
                Ok(())
            }
        }
    }

    /// Adds a line to what lines have printed: a name, and what is said about it.
    pub(crate) fn say(&mut self, name: &str, said: &str) -> Result<(), AllocError> {
        writeln!(self.page, "{name}{said}")
    }

    /// Adds a line that was wrong to what lines have printed.
    pub(crate) fn judge(&mut self, line: &str) -> Result<(), AllocError> {
        if self.wrong {
            self.wrong = false;
            self.say("wrong: ", line)?;
        }
        Ok(())
    }

    /// Adds what lines have printed to what the script prints.
    pub(crate) fn print(&mut self) -> Result<(), AllocError> {
        self.said.push_str(&self.page)?;
        self.page.clear();
        Ok(())
    }

    /// Does so after the turn of this number, if it is not what lines printed in the turn before.
    pub(crate) fn print_turn(&mut self, call: usize) -> Result<(), AllocError> {
        if self.page.as_str() != self.last.as_str() {
            push_turn(&mut self.said, call, &self.page)?;
        }
        mem::swap(&mut self.page, &mut self.last);
        self.page.clear();
        Ok(())
    }

    /// Forgets what was printed in the turn before.
    pub(crate) fn end_turns(&mut self) {
        self.last.clear();
    }

    /// What the script prints.
    pub(crate) fn said(&self) -> &str {
        &self.said
    }
}
