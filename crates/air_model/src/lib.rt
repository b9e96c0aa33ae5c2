//! What goes on the air: the definitions of deck, program, bucket, tape, copies, ether and session.
//!
//! `specs/` is the second half of what must be believed: each definition has one plain sentence above it and is computed on
//! small examples in `proofs/`. What is proved of the definitions themselves is the contract of a law, a public function with
//! an empty body. The only code that runs here makes the text of a bucket's fault.
#![tactic(auto)]

pub mod aired;
pub mod bucket;
pub mod copies;
pub mod deck;
pub mod ether;
pub mod program;
pub mod reports;
pub mod run_laws;
pub mod sessions;
pub mod tape;
