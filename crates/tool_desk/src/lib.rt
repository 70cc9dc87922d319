//! What an aggregator signs with, read from the files of a dealing.
#![tactic(auto)]

mod files;
mod reading;
mod reference;
mod tree;
mod views;

pub use files::{KeyFiles, file_name, read_key_and_tree, test_same_key};
pub use reading::{read_key_file, read_tree_file};
pub use reference::view_reference;
pub use tree::DealtTree;
pub use views::{end_cells, view_cells};
