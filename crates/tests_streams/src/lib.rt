//! Tests of the outside: disks, the links, nets and stores in memory, links that wait, and the adapters over the
//! system, over files, sockets and outputs that are made up and over the machine's own.
#![tactic(auto)]

#[cfg(test)]
mod network;
#[cfg(test)]
mod scripts;
#[cfg(test)]
mod storage;
