//! Links, ports, nets and outputs: in memory, over sockets that are made up, and over the machine's own.

pub(crate) mod fake_sockets;
mod host_links;
mod nets;
mod outputs;
mod peers;
mod sockets;
mod waits;
