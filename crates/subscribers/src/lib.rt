// The subscriber list, and who leaves a topic that has too many subscribers.
#![tactic(auto)]

mod eviction;
mod joined;
mod list;
mod subscription;

pub use eviction::{Eviction, Newest, Oldest};
pub use joined::Joined;
pub use list::Subscribers;
pub use subscription::Subscription;
