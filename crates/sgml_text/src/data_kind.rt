// The kinds of data entities.

/// The kind of a data entity (10.5.5).
#[derive(Clone, Copy, Debug, PartialEq, Eq)]
pub enum DataKind {
    /// Character data.
    Cdata,
    /// Data in a notation that is no SGML, always external.
    Ndata,
    /// Data that depends on the system that processes it.
    Sdata,
}
