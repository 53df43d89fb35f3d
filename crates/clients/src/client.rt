// A kind of client: what identifies a client, and when two are the same.
ghost use Rattle.std.specs.Prelude.{◌≡◌, ℕ, List, Decides};

pub trait Client: Copy {
    // the string of bytes that a client is known by
    ghost identity: { Self → List ℕ };

    // Whether both are the same client: exactly if their identities are equal.
    fn same(&self, other: &Self) -> bool
        ensures { Decides result (identity self.now ≡ identity other.now) };
}
