//! What the commands of the tool share: how a call ends, files that are read and written, and disks that go out and
//! come back.
#![tactic(auto)]

mod contents;
mod ending;
mod headers;
mod lines;
mod loads;
mod outputs;
mod reading;
mod services;
mod shares;
mod undealt;
mod unsigned;

pub use contents::{Content, find_content};
pub use ending::Ending;
pub use headers::header_of;
pub use loads::{DAMAGED, end_of_slots, load_fault_number};
pub use outputs::{
    Output, end_of_new, test_all_new, test_new, test_two_new, two_outputs, write_all,
};
pub use reading::{read_file, unreadable};
pub use services::end_of_service;
pub use shares::read_share_file;
pub use undealt::Undealt;
pub use unsigned::Unsigned;

/// The longest file that is read whole, in bytes.
pub const FILE_LIMIT: u64 = 67_108_864;
