//! What the lock knows of a value.

/// A value with a list of entries, an origin, and plain data that it holds for each lane.
pub trait Logged {
    /// An entry of the list.
    type Entry;

    /// What no turn changes.
    type Origin;

    /// What the value holds for one lane.
    type Held;

    ghost use Rattle.std.specs.Prelude.{ℕ, List};

    /// The list.
    ghost entries: { Self → List Self.Entry };

    /// The lane that an entry is of.
    ghost by: { Self.Entry → ℕ };

    ghost origin: { Self → Self.Origin };

    /// What the value holds for a lane.
    ghost held: { ℕ → Self → Self.Held };
}
