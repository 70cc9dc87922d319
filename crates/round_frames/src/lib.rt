//! Frames: how asks, replies, requests and results go over a stream.
#![tactic(auto)]

mod ask;
mod fault;
mod fill;
mod header;
pub mod laws;
mod message;
mod outcome;
mod reply;
mod request;
mod write;

pub use ask::next_ask;
pub use fault::FrameFault;
pub use outcome::{Failure, Outcome, next_result};
pub use reply::next_reply;
pub use request::next_request;
pub use write::{
    put_reply_head, write_ask, write_failure, write_reply_head, write_request, write_signature,
};
