//! Live sessions that are driven by lines: each line is a request, and is answered by a line. What was asked so far is the
//! script of a live factory, whose journal is legal for it at any time, and an answer lists the entries that its request
//! added.
#![tactic(auto)]

mod answering;
mod names;
mod orders;
mod server;
mod sessions;
mod statements;

pub use server::Server;
