//! What a value must be to be kept in a hall.
ghost use Rattle.std.specs.Prelude.{List};

/// A value that stands for a history, which is a list of entries, and for an origin, plain data that it begins with.
pub trait Kept: Drop {
    type Entry;

    type Origin;

    ghost origin: { Self → Self.Origin };

    ghost history: { Self → List Self.Entry };
}
