//! The running aggregator: it signs for clients, over a table under a lock. Workers serve the clients of ports, side by
//! side.
#![tactic(auto)]

mod client;
pub mod client_laws;
mod failure;
mod service;
mod sign;
mod turns;
mod worker;

pub use aggregator_session::{Address, Desk, SignFault, Signed, Why, run_session};
pub use client::serve_client;
pub use failure::failure_of;
pub use node_workers::{Served, ServedEnd, Worker};
pub use service::serve_clients;
pub use sign::sign_one;
pub use worker::serve;
