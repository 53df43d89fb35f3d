// A store that is a log in the caller's bytes.
#![tactic(auto)]

mod as_store;
mod entries;
mod held;
mod lend;
mod memory;
mod sift;
mod trailer;

pub use held::LogStore;
pub use lend::with_log;
