//! The call that the program makes, over streams that it hands in, and the listeners that the words ask for. It is
//! short, and a crate of its own so that an edit here proves none of hib_top anew.
#![tactic(auto)]

mod calling;

pub use calling::{ErrorTrace, call, listeners_asked};
