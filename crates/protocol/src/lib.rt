// The vocabulary of the broker: names of topics, response codes, refusals and faults of reading.
#![tactic(auto)]

mod code;
mod fault;
mod limits;
mod names;
mod refusal;

pub use code::Code;
pub use fault::Fault;
pub use limits::MAX_SUBSCRIBERS;
pub use names::{Handle, Number, data_address, hex_digit};
pub use refusal::Refusal;
