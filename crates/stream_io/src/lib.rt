//! Streams, files, stores and nets: the traits by which the code above meets the outside, and the one by which it tells
//! how far it is.
#![tactic(auto)]

mod call_fault;
mod failed;
mod net;
mod port;
mod progress;
mod raw_file;
mod sink;
mod source;
mod store;
mod stream;
mod totals;

pub use call_fault::{CallFault, PortsFault, ViewFault};
pub use failed::Failed;
pub use net::Net;
pub use port::{Accepted, Port};
pub use progress::{Progress, Silent};
pub use raw_file::RawFile;
pub use sink::{Sink, write_whole};
pub use source::{Source, read_whole};
pub use store::{NewFault, ReadAllFault, Readers, Store};
pub use stream::Stream;
pub use totals::Totals;
