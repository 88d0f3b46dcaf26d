// Why a document isn't read on.

/// Why nothing more was read.
#[derive(Clone, Copy, Debug, PartialEq, Eq)]
pub enum SourceError {
    /// The store failed.
    Store,
    /// No memory was there.
    Memory,
}
