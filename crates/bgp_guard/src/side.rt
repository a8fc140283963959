//! The two sides of a guard.

ghost use Rattle.std.specs.Prelude.{◌≡◌};
ghost use Rattle.bgp_guard.specs.Prelude.{other_side};

/// A side of a guard.
#[derive(Clone, Copy, Debug, PartialEq, Eq, Hash)]
pub enum Side {
    /// The peer that is guarded against.
    Outer,
    /// The speaker that is guarded.
    Inner,
}

impl Side {
    /// The other side.
    pub fn other(self) -> Side
        ensures { result ≡ other_side self }
    {
        match self {
            Side::Outer => Side::Inner,
            Side::Inner => Side::Outer,
        }
    }
}
