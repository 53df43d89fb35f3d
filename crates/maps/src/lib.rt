// Property maps of topics: read from and written to CBOR (RFC 8949).
#![tactic(auto)]

mod decode;
mod head;
mod properties;
mod range;
mod reader;

pub use decode::{EPOCH_SECONDS, read};
pub use head::{Head, Major};
pub use properties::{Key, Properties};
pub use range::check_range;
pub use reader::Reader;
