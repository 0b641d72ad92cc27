// How long a key and a text, how deep and how large a tree may be: the limits that definitions and
// code name alike.

/// The most keys that a path has, and that stand above a leaf.
pub const MAX_KEYS: usize = 32;

/// The most levels of a tree: a leaf has one, and each key above it one more.
pub const MAX_LEVELS: usize = 33;

/// The most bytes that a key has.
pub const MAX_KEY_BYTES: usize = 768;

/// The most bytes that the text of a leaf has.
pub const MAX_TEXT_BYTES: usize = 65536;

/// The least whole number of a leaf: JavaScript has all from here to [`MAX_WHOLE`] exactly.
pub const MIN_WHOLE: i64 = -9007199254740991;

/// The largest whole number of a leaf.
pub const MAX_WHOLE: i64 = 9007199254740991;

/// The most values that are read as one tree, each object and each null counted.
pub const MAX_NODES: usize = 65536;
