//! What is shown of a part.

/// How many names a part holds, cleared ones among them, how many of them it clears, and whether it holds range operations.
#[derive(Clone, Copy, Debug, PartialEq, Eq)]
pub struct PartShape {
    pub keys: u64,
    pub clears: u64,
    pub ranges: bool,
}
