//! Tests of frames: a table of batches and looks with frames by hand, and a publisher with monitors in threads.
//!
//! `lasts` has the last look, after all was told, which gives the whole list: that is proved of each call. `batches` makes
//! batches of rows, and publishes a given number that are alike. `looks` plays calls of a publisher and of its monitor on one
//! thread, and `workers` has monitors that look while a publisher publishes.
#![tactic(auto)]

#[cfg(test)]
mod batches;
#[cfg(test)]
mod lasts;
#[cfg(test)]
mod looks;
#[cfg(test)]
mod workers;
