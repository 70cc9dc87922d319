//! In-memory forms of the traits of the outside: links, ports, nets and stores, and links that wait for each other.
#![tactic(auto)]

mod bell;
mod calls;
mod chain;
mod conversation;
mod entries;
mod hold;
mod kept_port;
mod mem_file;
mod mem_link;
mod mem_net;
mod mem_port;
mod mem_sink;
mod mem_source;
mod mem_store;
mod port_script;
mod stored_disk;
mod waiting_link;
mod waiting_port;

pub use bell::Bell;
pub use calls::Calls;
pub use conversation::{Conversation, Gate};
pub use hold::{Before, Hold, Ring};
pub use kept_port::KeptPort;
pub use mem_file::MemFile;
pub use mem_link::MemLink;
pub use mem_net::MemNet;
pub use mem_port::MemPort;
pub use mem_sink::MemSink;
pub use mem_source::MemSource;
pub use mem_store::MemStore;
pub use port_script::PortScript;
pub use stored_disk::StoredDisk;
pub use waiting_link::WaitingLink;
pub use waiting_port::WaitingPort;
