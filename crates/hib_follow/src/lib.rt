//! A journal that is followed entry by entry: what is known of each key of a region, of each table, of each query and
//! of each session.
#![tactic(auto)]

mod deleted;
mod desk;
mod desks;
mod holders;
mod kept;
mod known;
mod marks;
mod shelf;

pub use deleted::Deleted;
pub use desk::Desk;
pub use desks::Desks;
pub use holders::{Holders, Line};
pub use kept::{Kept, key_in, leaving, row_from, tick_from, touched};
pub use known::Known;
pub use marks::{Keeps, Stamped, Stamps};
pub use shelf::{Shelf, Shelved};
