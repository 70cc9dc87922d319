//! The commands that sign: one session over a port, with a leaf of a table. `sign` signs a message, and `hss sign` a
//! lower key.
#![tactic(auto)]

mod command;
mod faults;
pub mod laws;
mod levels;
mod lower;
mod members;
mod session;
mod task;
mod writing;

pub use command::{sign, write_signature};
pub use levels::hss_sign;
pub use members::addresses_of;
pub use session::table_header;
pub use task::{Message, SessionWords, SignedBy, Task, read_task, sign_message, sign_task};
