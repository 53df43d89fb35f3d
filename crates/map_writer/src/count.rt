// The bytes of a map counted, and not kept.
ghost use Rattle.map_writer.specs.Counts.{CanCount, Counted, counter_laws};

use crate::sink::Sink;

// How many bytes there are. A map may have more than memory can hold, but none has as many as 128 bits can count.
#[derive(Drop)]
pub(crate) struct Counter {
    pub(crate) len: u128,
}

impl Sink for Counter {
    ghost Fits = { CanCount };

    ghost Takes = { Counted };

    fn put(&mut self, bytes: &[u8]) {
        self.len = self.len.saturating_add(bytes.len() as u128);
    }

    ghost laws = { counter_laws };
}
