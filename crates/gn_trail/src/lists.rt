//! What list a value stands for.

ghost use Rattle.std.specs.Prelude.{List};

/// The list of a value.
pub trait Lists<X, T> {
    ghost list: { X → List T };
}
