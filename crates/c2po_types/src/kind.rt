//! The kinds of values.

/// The kind of a value that isn't a set.
#[derive(Clone, Copy, PartialEq, Eq)]
pub enum Base {
    Int,
    Bool,
    /// A struct, by its number in the order of declaration.
    Struct(u32),
}

/// The kind of a value: a base kind within a number of nested sets, 0 if the value isn't a set.
#[derive(Clone, Copy, PartialEq, Eq)]
pub struct Kind {
    pub sets: u64,
    pub base: Base,
}

/// The meaning of a name.
#[derive(Clone, Copy)]
pub enum Meaning {
    /// A struct, by its number in the order of declaration.
    Struct(u32),
    /// A signal, a defined value or a variable.
    Value(Kind),
}
