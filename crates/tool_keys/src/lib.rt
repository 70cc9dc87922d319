//! The commands on keys as files: `verify`, `hss check`, `rehearse` and `deal`.
#![tactic(auto)]

mod deal;
mod hss_check;
mod large;
mod reading;
mod rehearse;
mod undealt;
mod verify;

pub use deal::deal_files;
pub use hss_check::hss_check_files;
pub use rehearse::rehearse_files;
pub use verify::verify_files;
