// What a call answers beside the bytes in its answer buffer.
use protocol::{Code, Handle, Number};

// A response: its code, the handle of a new topic, the Observe number, the content format, and how many bytes it has.
#[derive(Clone, Copy, PartialEq, Eq, Debug)]
pub struct Reply {
    pub code: Code,
    pub handle: Option<Handle>,
    pub observe: Option<Number>,
    pub format: Option<u16>,
    // the bytes themselves lie in the answer buffer that the caller lent
    pub len: usize,
}
