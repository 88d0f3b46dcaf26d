//! What it is to read a document, and the laws that make its full document one: definitions and laws
//! alone.
//!
//! First pieces: a piece is the smallest part of a document that is read at once; all kinds stand here,
//! with their facets, which are all that the definitions above know of a kind, and what is open after a
//! list of pieces. Then which tags may be left out, and why a piece can't stand where it comes. Then
//! the state after what was read, what is unread, what reads next and where reading stops, events,
//! lines and identifiers. Each law of reading holds for every record of `Forms`, so none is restated
//! when a form is added. The document type is that of the tables.
#![tactic(auto)]

mod documents;
mod omission;
mod pieces;
