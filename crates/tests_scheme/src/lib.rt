//! Tests of the crates of the scheme, of sessions, of frames and of the words of a command, over their public calls.
#![tactic(auto)]

#[cfg(test)]
mod dealings;
#[cfg(test)]
mod formats;
#[cfg(test)]
mod sessions;
#[cfg(test)]
mod trees;
#[cfg(test)]
mod values;
