// Readings: what a publish brings, and the bytes under which the broker stores it.
#![tactic(auto)]

mod reading;

pub use reading::Reading;
