use crate::firsts::Firsts;
use crate::token::Token;

/// What the scan of the members of a group from one on gives.
#[derive(Drop)]
pub struct Rest<'a> {
    pub done: bool,
    pub firsts: Firsts<'a>,
    pub lasts: Vec<Token<'a>>,
}

/// What the scan of the members of an AND group gives: what can come first, at the end of one of
/// them, and at the end of the group.
#[derive(Drop)]
pub struct Among<'a> {
    pub firsts: Firsts<'a>,
    pub ends: Firsts<'a>,
    pub lasts: Vec<Token<'a>>,
}
