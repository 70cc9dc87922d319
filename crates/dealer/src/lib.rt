//! The dealing of a key: from entropy to the public key, the tree, the masked reference value and the trustees' shares;
//! and a rehearsal of signing with a key that is dealt, in memory.
#![tactic(auto)]

mod beside;
mod building;
mod checks;
mod committed;
mod dealing;
mod entropy;
mod faults;
mod files;
pub mod laws;
mod leaves;
mod masks;
mod material;
mod onto;
mod onto_room;
mod onto_writing;
mod rehearsed;
mod runs;
mod shares;
mod signing;
mod writing;

pub use checks::test_dealing;
pub use committed::{CommittedFault, deal_committed, deal_committed_beside};
pub use dealing::{Dealt, deal, deal_beside};
pub use faults::DealFault;
pub use files::{DealingFiles, KeyFiles, public_file};
pub use onto::{DealtKey, OntoFault, deal_onto, open_reference};
pub use rehearsed::{Rehearsed, rehearsal_params, rehearse};
