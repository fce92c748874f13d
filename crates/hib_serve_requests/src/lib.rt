//! The requests of an application that drives live sessions: each a line, which is a JSON object. A line is read as what
//! it asks for, or it is refused by a name, and what tells its answer apart is read from it either way.
#![tactic(auto)]

mod members;
mod objects;
mod reading;
mod requests;

pub use reading::read_request;
pub use requests::{Asked, Fault, Id, Request};
