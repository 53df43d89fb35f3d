// How large a payload may be.

// the most bytes of a payload
pub const MAX_PAYLOAD: usize = 256;
