//! Lists of pairs that are turned round or put together: how a key is looked up in them, and what is left when it is
//! taken out.
//!
//! The crate has no code. An identity map and both kinds of region turn such lists, so that the first one leaves
//! without moving the others.
#![tactic(auto)]
