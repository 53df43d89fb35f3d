// Who subscribes: tokens, kinds of client, and subscribers.
#![tactic(auto)]

mod client;
mod endpoint;
mod session;
mod subscriber;
mod token;

pub use client::Client;
pub use endpoint::Endpoint;
pub use session::Session;
pub use subscriber::Subscriber;
pub use token::Token;
