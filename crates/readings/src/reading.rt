// A reading, with its payload as a part of the bytes that hold it.
use protocol::Number;

// What a publish brought: the content format, the publication number, and the payload.
#[derive(Clone, Copy, PartialEq, Eq, Debug)]
pub struct Reading<'a> {
    pub format: u16,
    pub number: Number,
    pub payload: &'a [u8],
}
