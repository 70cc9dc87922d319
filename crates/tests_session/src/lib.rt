//! Tests of what serves sessions: trustees and clients at ports, the tool's clocks, its enrolment, `show` and its
//! listings, and the line of a summary.
#![tactic(auto)]

#[cfg(test)]
mod client_ports;
#[cfg(test)]
mod clocks;
#[cfg(test)]
mod enrolment;
#[cfg(test)]
mod listings;
#[cfg(test)]
mod made_files;
#[cfg(test)]
mod ports;
#[cfg(test)]
mod show;
#[cfg(test)]
mod summary;
#[cfg(test)]
mod trustee_ports;
