//! Worked journals of two nodes: what the definitions of a legal one say of small scripts, computed by the prover.
//!
//! The crate has no code. Each file in `proofs/` holds a script, the places of its sessions and its journal, which was
//! worked out by hand, is what the definitions compute, and is legal entry by entry.
//!
//! - `OldItem`: a node hits its old item until the fence of the other node's commit. Before it one commit is behind,
//!   and after it none.
//! - `FencedPut`: a fence turns away a put of a row that was loaded before the other node's commit. An eviction in its
//!   place is no legal entry.
//! - `Run` says how a journal is computed from a script, the places of its sessions and the orders.
#![tactic(auto)]
