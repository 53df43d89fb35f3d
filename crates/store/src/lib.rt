// What a store is: an ordered map from keys to values, for any kind of memory behind it.
#![tactic(auto)]

mod key;
mod laws;
mod scan;
mod store;
mod work;

pub use key::Key;
pub use laws::laws_stand;
pub use scan::lower;
pub use store::{Store, VALUE_LIMIT};
pub use work::Work;
