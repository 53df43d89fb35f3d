// Limits that more than one part of the broker keeps.

// The most subscribers that one topic may have.
pub const MAX_SUBSCRIBERS: usize = 100;
