// The broker as a machine over histories of calls: its state, what each call does, and the law that every history keeps.
#![tactic(auto)]

mod broker;
mod reply;

pub use broker::Broker;
pub use reply::Reply;
