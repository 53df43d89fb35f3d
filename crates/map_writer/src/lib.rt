// Property maps of topics in their one written form.
#![tactic(auto)]

mod buffer;
mod complete;
mod count;
mod entry;
mod form;
mod sink;
mod writer;

pub use complete::{addressed, with_defaults};
pub use writer::{write, written_len};
