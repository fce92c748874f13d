//! Laws of the room in a region: which key is the first by its place, and how many keys have an entry.
//!
//! The crate has no code. The definitions go over the journal, and a region keeps a list of keys; what is proved here
//! lets both say the same of the first key and of their number. Both kinds of region cite it.
#![tactic(auto)]
