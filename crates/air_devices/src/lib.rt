//! The devices by which files are read, outputs are written, text is printed, and buckets are sent and heard.
//!
//! `shelves` has the trait of a device with files and outputs, and the one refusal; `masts` has that of a device that sends
//! buckets, and `ears` that of one that hears them. A call that fails says which count went up, so that a caller can name the
//! cause of its own answer. `memory` has forms in memory, which tell all that they hold and fail where they are told to.
//! `system` has those of the operating system: a shelf over real files and standard output, and a mast and an ear over UDP on
//! this machine only. Each of these keeps what the system said of its last failure. `reading` reads a whole file through any
//! shelf, `rooms` keeps bytes within a limit, and `gates` has what is called around what jobs do.
#![tactic(auto)]

pub mod ears;
pub mod gates;
pub mod masts;
pub mod memory;
pub mod paced_gate;
mod paces;
pub mod reading;
pub mod rooms;
pub mod shelves;
pub mod system;

pub use ears::{Ear, Heard};
pub use gates::{Gate, OpenGate};
pub use masts::Mast;
pub use memory::ear::MemEar;
pub use memory::mast::MemMast;
pub use memory::shelf::MemShelf;
pub use paced_gate::PacedGate;
pub use reading::{ReadFileError, read_file};
pub use rooms::fixed_bytes::FixedBytes;
pub use rooms::tape_room::TapeRoom;
pub use shelves::{Failed, Shelf};
pub use system::file_failures::{FileCall, FileFailure};
pub use system::file_shelf::FileShelf;
pub use system::net_failures::{NetCall, NetFailure};
pub use system::udp_ear::{SILENCE, UdpEar};
pub use system::udp_mast::UdpMast;
