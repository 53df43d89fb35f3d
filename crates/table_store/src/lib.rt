// A store in a table of 64 places, inside the value itself.
#![tactic(auto)]

mod as_store;
mod entry;
mod place;
mod scan;
mod table;

pub use table::{PLACES, TableStore};
