// What a newcomer is told.

#[derive(Clone, Copy, PartialEq, Eq, Debug)]
pub enum Joined {
    // the pair was added at the end
    Added,
    // the pair stood already, and keeps its place
    Standing,
    // no pair more of this handle, or no pair more at all
    NoPlace,
}
