// Where the bytes of a map go, one behind the other: the bytes are kept, or counted.
ghost use Rattle.std.specs.Prelude.{ℕ, List};
ghost use Rattle.map_writer.specs.Sinks.{SinkLaws};

pub(crate) trait Sink {
    // that these bytes may be put
    ghost Fits: { Self → List ℕ → Type 0 };

    // what the sink is once these bytes are put
    ghost Takes: { Self → List ℕ → Self → Type 0 };

    fn put(&mut self, bytes: &[u8])
        requires { Fits self.old bytes.now }
        ensures { Takes self.old bytes.now self.new };

    ghost laws: { SinkLaws Fits Takes };
}
