//! The devices of the operating system: real files and standard output, and UDP on this machine. They tell nothing, and no proof says what they do.

pub mod file_failures;
pub mod file_shelf;
pub mod net_failures;
pub mod udp_ear;
pub mod udp_mast;
