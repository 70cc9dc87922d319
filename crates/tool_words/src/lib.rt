//! Which words are a command, and its words as values.
#![tactic(auto)]

mod aggregate_words;
mod command;
mod deal_words;
mod drill_words;
mod hss_sign_words;
mod numbers;
mod places;
mod sign_words;
mod split;
mod trustee_words;
mod words;

pub use aggregate_words::AggregateWords;
pub use command::Command;
pub use deal_words::DealWords;
pub use drill_words::DrillWords;
pub use hss_sign_words::HssSignWords;
pub use places::Places;
pub use sign_words::SignWords;
pub use split::split_words;
pub use trustee_words::TrusteeWords;
pub use words::command_of;
