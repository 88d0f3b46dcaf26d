// Reading a declaration byte by byte.
ghost use Rattle.std.specs.Prelude.{◌≡◌, IfOk, OnOk, find, length, true, false};
ghost use Rattle.std.specs.Option.{option_map};
ghost use Rattle.sgml_sgmldecl.specs.Keywords.{spelling};
ghost use Rattle.sgml_sgmldecl.specs.Rows.{rows};
ghost use Rattle.sgml_sgmldecl.specs.Items.{begins};
ghost use Rattle.sgml_sgmldecl.specs.Characters.{is_name_byte};
ghost use Rattle.sgml_sgmldecl.specs.Machine.{State, state_of, met, step, marks_after, ended, begun, outside, in_word, in_literal, begun_word, opened, is_marks, Agrees, run, begin_state};
ghost use Rattle.sgml_sgmldecl.specs.Following.{row_at, after, first_begun};

use crate::due::Due;
use crate::feature::DeclError;
use crate::heard::{Heard, start, tell};
use crate::item::{
    begins, content_goes_on, is_name_byte, is_whole_content, is_whole_word, same, word_goes_on,
};
use crate::keyword::{Keyword, spelling};
use crate::row::{Content, Item, ListEnd, Row, Tells};
use crate::rows::rows;
use sgml_text::{Memory, is_separator};
use std::alloc::Global;

/// Where the reader stands.
#[derive(Clone, Copy)]
pub enum Part {
    /// Between words, after a separator, a comment or a literal.
    Apart,
    /// Directly after a word of name characters.
    After,
    /// After the first `-` of a comment.
    Dash,
    Comment,
    /// In a comment, after a `-`.
    CommentDash,
    /// In a word of name characters.
    Word(Row),
    /// In a literal that this quote ends.
    Literal(Row, Content, u8),
}

/// What a byte does.
#[derive(Clone, Copy)]
pub enum Turn {
    /// No declaration goes on with it.
    Refused,
    GoesOn,
    /// It ends the declaration.
    Ended,
}

/// A declaration that is read in part.
#[derive(Drop)]
pub struct Reading {
    pub part: Part,
    pub due: Due,
    /// The place of the word or literal that was begun last.
    pub from: u64,
    /// That word in upper case, or what the literal has between its quotes.
    pub word: Vec<u8>,
    /// What the last literal of marks has.
    pub marks: Vec<u8>,
    pub heard: Heard,
}

impl Reading {
    /// Takes the byte at this place.
    pub fn take(&mut self, alloc: Global, at: u64, b: u8) -> Result<Turn, Memory>
        ensures { IfOk result (λ turn. met turn (state_of self.new) ≡ step at (state_of self.old) b) }
    {
        match self.part {
            Part::Apart => self.take_outside(false, at, b),
            Part::After => self.take_outside(true, at, b),
            Part::Dash => {
                if b != b'-' {
                    return Ok(Turn::Refused);
                }
                self.part = Part::Comment;
                Ok(Turn::GoesOn)
            }
            Part::Comment => {
                self.part = if b == b'-' {
                    Part::CommentDash
                } else {
                    Part::Comment
                };
                Ok(Turn::GoesOn)
            }
            Part::CommentDash => {
                self.part = if b == b'-' {
                    Part::Apart
                } else {
                    Part::Comment
                };
                Ok(Turn::GoesOn)
            }
            Part::Word(row) => self.take_in_word(alloc, row, at, b),
            Part::Literal(row, content, quote) => self.take_in_literal(
                alloc, row, content, quote, b,
            ),
        }
    }

    fn take_in_word(&mut self, alloc: Global, row: Row, at: u64, b: u8) -> Result<Turn, Memory>
        ensures { IfOk result (λ turn. met turn (state_of self.new) ≡ in_word row at (state_of self.old) b) }
    {
        if word_goes_on(row.item, &self.word, b) {
            self.word.push(b.to_ascii_uppercase())?;
            return Ok(Turn::GoesOn);
        }
        if !is_whole_word(row.item, &self.word) {
            return Ok(Turn::Refused);
        }
        self.end(alloc, Part::After, row)?;
        self.take_outside(true, at, b)
    }

    fn take_in_literal(
        &mut self,
        alloc: Global,
        row: Row,
        content: Content,
        quote: u8,
        b: u8,
    ) -> Result<Turn, Memory>
        ensures { IfOk result (λ turn. met turn (state_of self.new) ≡ in_literal row content quote (state_of self.old) b) }
    {
        if b == quote {
            if !is_whole_content(content, &self.marks, &self.word) {
                return Ok(Turn::Refused);
            }
            self.end(alloc, Part::Apart, row)?;
            return Ok(Turn::GoesOn);
        }
        if !content_goes_on(content, &self.marks, &self.word, b) {
            return Ok(Turn::Refused);
        }
        self.word.push(b)?;
        Ok(Turn::GoesOn)
    }

    /// Takes a byte between words. Directly after a word of name characters no name character may stand.
    fn take_outside(&mut self, tight: bool, at: u64, b: u8) -> Result<Turn, Memory>
        ensures { IfOk result (λ turn. met turn (state_of self.new) ≡ outside tight at (state_of self.old) b) }
    {
        if is_separator(b) {
            self.part = Part::Apart;
            return Ok(Turn::GoesOn);
        }
        if tight && is_name_byte(b) {
            return Ok(Turn::Refused);
        }
        if b == b'-' {
            self.part = Part::Dash;
            return Ok(Turn::GoesOn);
        }
        match row_at(self.due, b) {
            Some(row) => self.begin(row, at, b),
            None => Ok(Turn::Refused),
        }
    }

    fn begin(&mut self, row: Row, at: u64, b: u8) -> Result<Turn, Memory>
        ensures { IfOk result (λ turn. met turn (state_of self.new) ≡ begun row at (state_of self.old) b) }
    {
        match row.item {
            Item::End => Ok(Turn::Ended),
            Item::Literal(content) => {
                self.open(Part::Literal(row, content, b), at);
                Ok(Turn::GoesOn)
            }
            Item::Opening => Ok(Turn::Refused),
            Item::Word(_) => self.begin_word(row, at, b),
            Item::Number => self.begin_word(row, at, b),
            Item::Name(_) => self.begin_word(row, at, b),
        }
    }

    fn begin_word(&mut self, row: Row, at: u64, b: u8) -> Result<Turn, Memory>
        ensures { IfOk result (λ turn. met turn (state_of self.new) ≡ begun_word row at (state_of self.old) b) }
    {
        self.open(Part::Word(row), at);
        self.word.push(b.to_ascii_uppercase())?;
        Ok(Turn::GoesOn)
    }

    fn open(&mut self, part: Part, at: u64)
        ensures { state_of self.new ≡ opened part at (state_of self.old) }
    {
        self.part = part;
        self.from = at;
        self.word.clear();
    }

    /// Ends the word or literal of a row.
    fn end(&mut self, alloc: Global, part: Part, row: Row) -> Result<(), Memory>
        ensures { OnOk result (state_of self.new ≡ ended part row (state_of self.old)) }
    {
        tell(alloc, &mut self.heard, row.tells, self.from, &self.word)?;
        if keeps_marks(row.item) {
            self.marks.clear();
            self.marks.extend_from_slice(&self.word)?;
        }
        self.due = after(row, &self.word);
        self.part = part;
        Ok(())
    }
}

/// Whether the item is a literal of marks, which is compared with a later one.
fn keeps_marks(item: Item) -> bool
    ensures { result ≡ is_marks item }
{
    match item {
        Item::Literal(Content::Marks) => true,
        _ => false,
    }
}

/// The row of what is due that begins with the byte.
fn row_at(due: Due, b: u8) -> Option<Row>
    ensures { result ≡ row_at due b }
{
    first_begun(rows(due), b)
}

fn first_begun(rows: &[Row], b: u8) -> Option<Row>
    ensures { result ≡ first_begun rows.now b }
{
    match rows {
        [] => None,
        [row, rest @ ..] => {
            if begins(row.item, b) {
                Some(*row)
            } else {
                first_begun(rest, b)
            }
        }
    }
}

/// What is due after an item of this row.
fn after(row: Row, word: &[u8]) -> Due
    ensures { result ≡ after row word.now }
{
    match row.item {
        Item::Name(ListEnd::Scope) => {
            if same(word, spelling(Keyword::Scope)) {
                Due::ScopeValue
            } else {
                row.then
            }
        }
        Item::Name(ListEnd::Features) => {
            if same(word, spelling(Keyword::Features)) {
                Due::Minimize
            } else {
                row.then
            }
        }
        _ => row.then,
    }
}

/// Before the first byte, where `<!SGML` is due.
fn begin_state(alloc: Global) -> Reading
    ensures { state_of result ≡ begin_state }
{
    Reading {
        part: Part::Word(Row {
            item: Item::Opening,
            tells: Tells::Nothing,
            then: Due::Heading,
        }),
        due: Due::Heading,
        from: 0,
        word: Vec::new(alloc),
        marks: Vec::new(alloc),
        heard: start(),
    }
}

/// What a declaration at the front of the text tells, and how many bytes it has.
pub fn read(alloc: Global, text: &[u8]) -> Result<(Heard, usize), DeclError>
    ensures { Agrees (run 0 begin_state text.now) result }
{
    let mut reading = begin_state(alloc);
    for i in 0..text.len() {
        match reading.take(alloc, i as u64, text[i])? {
            Turn::Refused => return Err(DeclError::BadDeclaration { at: i as u64 }),
            Turn::GoesOn => {}
            Turn::Ended => {
                let Reading { heard, .. } = reading;
                return Ok((heard, i + 1));
            }
        }
    }
    Err(DeclError::BadDeclaration {
        at: text.len() as u64,
    })
}
