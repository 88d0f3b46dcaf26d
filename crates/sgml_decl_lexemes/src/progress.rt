// A declaration as far as it was read.
ghost use Rattle.std.specs.Prelude.{◌≡◌, ◌≤◌, ◌++◌, ◌∷◌, [], OnOk, map, length};
ghost use Rattle.sgml_text.specs.declared.unit.Unit.TheVariants as unit;
ghost use Rattle.sgml_decl_lexemes.specs.Readings.{declaration_form, first_form, nothing_read, with_lexeme, passed, quoted, unquoted, literal_of, is_value, is_value_kind, space_in, with_units, with_bytes, with_data, byte_of, with_char, without_char, here_by, is_its_text, gap_at};

use crate::lexeme::{Lexeme, Lexemes};
use crate::start::separators;
use sgml_decl_parts::{
    Construct, Form, Here, LiteralKind, Opened, after_literal, is_in_group, literal_kind,
};
use sgml_entity::Space;
use sgml_text::{Memory, Text, Unit, Units};
use std::alloc::Global;
use std::marker::Model;

/// What was read of a declaration.
#[derive(Drop)]
pub(crate) struct Progress {
    alloc: Global,
    form: Form,
    lexemes: Vec<Lexeme>,
    literal: Option<Opened>,
    bytes: Vec<u8>,
    units: Vec<Unit>,
    after_group: bool,
    no_char: bool,
}

impl Model for Progress {
    ghost use Rattle.sgml_decl_lexemes.specs.Readings.{Reading};

    ghost Value = { Reading };

    ghost view = { λ a. record { form = a.form; lexemes = a.lexemes.items; literal = a.literal; bytes = a.bytes.items; units = a.units.items; after_group = a.after_group; no_char = a.no_char } };
}

impl Progress {
    pub(crate) fn new(alloc: Global, form: Form) -> Self
        ensures { result ≡ nothing_read form }
    {
        Progress {
            alloc,
            form,
            lexemes: Vec::new(alloc),
            literal: None,
            bytes: Vec::new(alloc),
            units: Vec::new(alloc),
            after_group: false,
            no_char: false,
        }
    }

    #[inline(always)]
    pub(crate) fn form(&self) -> Form
        ensures { result ≡ self.now.form }
    {
        self.form
    }

    #[inline(always)]
    pub(crate) fn no_char(&self) -> bool
        ensures { result ≡ self.now.no_char }
    {
        self.no_char
    }

    /// How many separators stand next; those within a literal are its data.
    #[inline(always)]
    pub(crate) fn gap(&self, bytes: &[u8]) -> usize
        ensures value { result ≡ gap_at self.now.literal bytes.now }
        ensures within { result ≤ length bytes.now }
    {
        match self.literal {
            None => separators(bytes),
            Some(_) => 0,
        }
    }

    pub(crate) fn lexemes(&self) -> &[Lexeme]
        ensures { result.now ≡ self.now.lexemes }
    {
        &self.lexemes
    }

    /// What is known of the place, on a stack of so many texts.
    #[inline(always)]
    pub(crate) fn here(&self, base: usize, height: usize) -> Here
        ensures { result ≡ here_by base height self.now }
    {
        Here {
            literal: self.literal,
            in_its_text: is_its_text(self.literal, height),
            at_base: height == base,
            in_group: is_in_group(self.form),
            after_group: self.after_group,
        }
    }

    /// The space of the names of entities that are referenced here.
    #[inline(always)]
    pub(crate) fn space(&self) -> Space
        ensures { result ≡ space_in self.now }
    {
        if is_value(self.literal) {
            Space::General
        } else {
            Space::Parameter
        }
    }

    #[inline(always)]
    pub(crate) fn pass(&mut self)
        ensures { self.new ≡ passed self.old }
    {
        self.after_group = false;
    }

    /// A lexeme more, after which this is due.
    #[inline(always)]
    pub(crate) fn add(
        &mut self,
        form: Form,
        after_group: bool,
        lexeme: Lexeme,
    ) -> Result<(), Memory>
        ensures { OnOk result (self.new ≡ with_lexeme form after_group lexeme self.old) }
    {
        if self.lexemes.capacity() <= self.lexemes.len() {
            self.lexemes.reserve(16)?;
        }
        self.lexemes.push_reserved(lexeme);
        self.form = form;
        self.after_group = after_group;
        Ok(())
    }

    /// A literal begins.
    #[inline(always)]
    pub(crate) fn quote(&mut self, quote: u8, height: usize)
        ensures { self.new ≡ quoted quote height self.old }
    {
        self.literal = Some(Opened {
            quote,
            kind: literal_kind(self.form),
            height,
        });
        self.after_group = false;
    }

    /// The literal ends.
    pub(crate) fn unquote(&mut self) -> Result<(), Memory>
        ensures { OnOk result (self.new ≡ unquoted self.old) }
    {
        let bytes = std::mem::replace(&mut self.bytes, Vec::new(self.alloc));
        let units = std::mem::replace(&mut self.units, Vec::new(self.alloc));
        let lexeme = literal_lexeme(self.literal, bytes, units);
        self.lexemes.push(lexeme)?;
        self.form = after_literal(self.form);
        self.literal = None;
        Ok(())
    }

    /// Units of the literal that is open.
    pub(crate) fn add_unit(&mut self, unit: Unit) -> Result<(), Memory>
        ensures { OnOk result (self.new ≡ with_units (unit ∷ []) self.old) }
    {
        self.units.push(unit)?;
        Ok(())
    }

    fn add_text(&mut self, bytes: &[u8]) -> Result<(), Memory>
        ensures { OnOk result (self.new ≡ with_units (map unit.Byte bytes.now) self.old) }
    {
        push_bytes(&mut self.units, bytes)?;
        Ok(())
    }

    fn add_bytes(&mut self, bytes: &[u8]) -> Result<(), Memory>
        ensures { OnOk result (self.new ≡ with_bytes bytes.now self.old) }
    {
        self.bytes.extend_from_slice(bytes)?;
        Ok(())
    }

    /// Data of the literal that is open.
    pub(crate) fn data(&mut self, bytes: &[u8]) -> Result<(), Memory>
        ensures { OnOk result (self.new ≡ with_data bytes.now self.old) }
    {
        if is_value(self.literal) {
            self.add_text(bytes)?;
            Ok(())
        } else {
            self.add_bytes(bytes)?;
            Ok(())
        }
    }

    /// A character of the literal that is open, from a reference.
    pub(crate) fn character(&mut self, unit: Unit) -> Result<(), Memory>
        ensures { OnOk result (self.new ≡ with_char unit self.old) }
    {
        if is_value(self.literal) {
            self.add_unit(unit)?;
            return Ok(());
        }
        match unit {
            Unit::Byte(b) => {
                self.bytes.push(b)?;
                Ok(())
            }
            Unit::Coded(b) => {
                self.bytes.push(b)?;
                Ok(())
            }
            Unit::Sdata(_) => Ok(()),
        }
    }

    /// A reference names no character.
    pub(crate) fn refuse_character(&mut self)
        ensures { self.new ≡ without_char self.old }
    {
        self.no_char = true;
    }

    /// The lexemes.
    pub(crate) fn finish(self) -> Lexemes
        ensures { result ≡ self.lexemes }
    {
        Lexemes::of(self.lexemes)
    }
}

fn declaration_form(named: bool) -> Form
    ensures { result ≡ declaration_form named }
{
    if named { Form::Keyword } else { Form::Comment }
}

/// What is due first, where a name begins the declaration or doesn't.
pub(crate) fn first_form(construct: Construct, named: bool) -> Form
    ensures { result ≡ first_form construct named }
{
    match construct {
        Construct::Declaration => declaration_form(named),
        Construct::SectionStart => Form::Statuses,
        Construct::SubsetEnd => Form::Whole,
        Construct::Literal(_) => Form::Default,
    }
}

#[inline(always)]
fn is_value(literal: Option<Opened>) -> bool
    ensures { result ≡ is_value literal }
{
    match literal {
        None => false,
        Some(opened) => is_value_kind(opened.kind),
    }
}

#[inline(always)]
fn is_value_kind(kind: LiteralKind) -> bool
    ensures { result ≡ is_value_kind kind }
{
    match kind {
        LiteralKind::Value => true,
        _ => false,
    }
}

#[inline(always)]
fn is_its_text(literal: Option<Opened>, height: usize) -> bool
    ensures { result ≡ is_its_text literal height }
{
    match literal {
        None => false,
        Some(opened) => opened.height == height,
    }
}

fn literal_lexeme(literal: Option<Opened>, bytes: Vec<u8>, units: Vec<Unit>) -> Lexeme
    ensures { result ≡ literal_of literal bytes.items units.items }
{
    if is_value(literal) {
        Lexeme::Value(Units::of(units))
    } else {
        Lexeme::Literal(Text::of(bytes))
    }
}

fn push_bytes(units: &mut Vec<Unit>, bytes: &[u8]) -> Result<(), Memory>
    ensures { OnOk result (units.new.items ≡ units.old.items ++ map unit.Byte bytes.now) }
{
    for b in bytes {
        units.push(Unit::Byte(*b))?;
    }
    Ok(())
}
