//! In which form something is told.

/// How something is told.
#[derive(Clone, Copy, Debug, PartialEq, Eq)]
pub enum Form {
    /// By words, on lines.
    Lines,
    /// As JSON, one object a line.
    Json,
}
