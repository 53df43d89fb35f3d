// How a client changes a topic's properties.

// Which properties a client's map sets: all that may change, or only those that it gives.
#[derive(Clone, Copy, PartialEq, Eq, Debug)]
pub enum Amendment {
    // those not given become absent, or their defaults
    Replace,
    // those not given stay
    Patch,
}
