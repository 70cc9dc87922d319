//! The files of a dealing: the share of each trustee, the tree, and the masked reference value.
#![tactic(auto)]

mod commits_layout;
mod faults;
mod head;
mod plan_head;
mod reference;
mod reference_layout;
mod share;
mod share_layout;
mod tree_file;

pub use commits_layout::{length_of_commits, read_commits_header, write_commits_head};
pub use faults::FileFault;
pub use head::version_of;
pub use mask_prf::{
    COMMITMENT, HEAD, TAG, chain_bytes, chain_commits_bytes, leaf_bytes, leaf_commits_bytes,
};
pub use reference::{RefHeader, RefView};
pub use reference_layout::{length_of_reference, read_ref_header, read_reference, write_ref_head};
pub use share::Share;
pub use share_layout::{read_share, write_share};
pub use tree_file::{TreeView, read_tree, write_tree_head};
