//! What is played of a list of entries, whatever an entry is: the steps of one of several that have numbers, each of
//! them to its end, and one order after the other.
//!
//! The crate has no code. `specs/Playing` says what is played, and `proofs/Playing` how a run goes on by it. A machine
//! whose journal has entries of its own kind says by it what `play` leaves.
#![tactic(auto)]
