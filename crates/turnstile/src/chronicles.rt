//! What the value of a turnstile stands for.
ghost use Rattle.std.specs.Prelude.{ℕ, List};

/// A value that stands for a list of entries, each with the number of the pass that made it, and for a base, which is plain
/// data that no turn changes.
pub trait Chronicle {
    /// An entry of the list, without the number of the pass that made it.
    type Entry;

    /// The plain data that no turn changes.
    type Base;

    ghost entries: { Self → List (ℕ × Self.Entry) };

    ghost base: { Self → Self.Base };
}
