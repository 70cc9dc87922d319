//! Runs over objects in memory for which the premises of laws hold. If a call here answers true, it has made such a
//! run, so the premises can hold together. That it does so is seen where it is called with bytes.

mod heard;
mod links;
mod sign;
mod trustee;

pub use links::Peer;
pub use sign::{lost_steadily, well_signed};
pub use trustee::served_steadily;
