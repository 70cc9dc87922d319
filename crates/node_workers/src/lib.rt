//! What the workers of both nodes share: how a connection ends, and what one thread uses and did.
#![tactic(auto)]

mod end;
mod served;
mod start;
mod worker;

pub use end::gather;
pub use served::{MOST_FRAMES, Served, ServedEnd, end_by};
pub use start::make_workers;
pub use worker::{Worker, next_link};
