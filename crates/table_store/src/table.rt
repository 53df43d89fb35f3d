// The table store: 64 places in a plain struct, no key in two of them.
ghost use Rattle.std.specs.Prelude.{◌≡◌, true, length};
ghost use Rattle.table_store.specs.Places.{tidy};

use crate::place::Place;

// How many keys a table holds.
pub const PLACES: usize = 64;

// Ghost fields and no model: the laws of a store speak of every table, and a model's value alone would not be tidy.
#[derive(Drop)]
pub struct TableStore {
    pub(crate) places: [Place; PLACES],
    ghost count: { length places ≡ 64 },
    ghost tidy: { tidy places ≡ true },
}
