//! Thin adapters over the system for the traits of the outside, which tell nothing but their counts of faults; links
//! that read ahead and write behind, over any link; disks over any file; and a line of progress on a terminal.
#![tactic(auto)]

mod buffered;
mod buffered_port;
mod causes;
mod counted;
mod fault_count;
mod file_disk;
mod file_store;
mod host_file;
mod lockable;
mod new_file;
mod next_sync;
mod open_file;
mod pieces;
mod progress_line;
mod raw_port;
mod refused;
mod stdout_sink;
mod tcp_link;
mod tcp_net;
mod tcp_port;
mod window;

pub use buffered::Buffered;
pub use buffered_port::BufferedPort;
pub use file_disk::FileDisk;
pub use file_store::FileStore;
pub use host_file::HostFile;
pub use lockable::Lockable;
pub use progress_line::ProgressLine;
pub use raw_port::{News, RawPort, next_link};
pub use refused::{Refused, refusal_of};
pub use stdout_sink::StdoutSink;
pub use tcp_link::TcpLink;
pub use tcp_net::TcpNet;
pub use tcp_port::TcpPort;
