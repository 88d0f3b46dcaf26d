// Why a declaration has no lexemes.
use sgml_text::Reason;

/// Why no part of a declaration stands at a place.
#[derive(Clone, Copy, Debug, PartialEq, Eq)]
pub enum Fault {
    /// The text of this external entity isn't there yet.
    Wanting(u32),
    Refusing(Reason),
}

/// Why a declaration has no lexemes, or not yet.
#[derive(Clone, Copy, Debug, PartialEq, Eq)]
pub enum LexError {
    Refused(Reason),
    /// The text of this external entity is opened and wasn't given.
    Wanted(u32),
    /// The document's text given so far doesn't end the declaration.
    NeedMore,
    /// No memory was there.
    Memory,
}

/// What a reference to an entity reaches.
#[derive(Clone, Copy, Debug, PartialEq, Eq)]
pub enum Reached {
    /// The text of this entity, of so many bytes, is opened.
    Opens(u32, u64),
    /// The text of this CDATA entity stands for the reference, and isn't opened.
    PutsText(u32),
    /// This SDATA entity stands for the reference.
    PutsData(u32),
    Fails(Fault),
}
