//! The running trustee: it reads asks from a connection, decides on each in a turn of its own, and writes a reply to
//! each. Workers serve the connections of ports, side by side.
#![tactic(auto)]

mod connection;
pub mod laws;
pub mod port_laws;
mod reply;
mod service;
mod turn;
mod worker;

pub use connection::serve_connection;
pub use node_workers::{Served, ServedEnd, Worker};
pub use service::serve_ports;
pub use stream_io::Totals;
pub use worker::serve;
