// Declarations by their keyword.
ghost use Rattle.std.specs.Prelude.{◌≡◌, IfOk};
ghost use Rattle.sgml_decl_forms.specs.Declarations.{declaration_at};

use crate::attlist::{AttlistDeclaration, read_attlist};
use crate::doctype::{DoctypeHead, read_doctype};
use crate::element::{ElementDeclaration, read_element};
use crate::entity::{EntityDeclaration, read_entity};
use crate::external::{NotationDeclaration, read_notation};
use crate::map::{ShortrefDeclaration, UsemapDeclaration, read_shortref, read_usemap};
use crate::words::is_keyword;
use sgml_decl_lexemes::Lexeme;
use sgml_text::Memory;
use std::alloc::Global;

/// What a declaration says.
#[derive(Drop)]
pub enum Declaration {
    Element(ElementDeclaration),
    Attlist(AttlistDeclaration),
    Entity(EntityDeclaration),
    Notation(NotationDeclaration),
    Shortref(ShortrefDeclaration),
    Usemap(UsemapDeclaration),
    Doctype(DoctypeHead),
}

/// What the lexemes of a declaration say, its keyword first. None exactly where they are of no form.
pub fn read_declaration(alloc: Global, lexemes: &[Lexeme]) -> Result<Option<Declaration>, Memory>
    ensures { IfOk result (λ r. r ≡ declaration_at lexemes.now) }
{
    let [word, rest @ ..] = lexemes else {
        return Ok(None);
    };
    if is_keyword(word, b"ELEMENT") {
        return Ok(read_element(alloc, rest)?.map(Declaration::Element));
    }
    if is_keyword(word, b"ATTLIST") {
        return Ok(read_attlist(alloc, rest)?.map(Declaration::Attlist));
    }
    if is_keyword(word, b"ENTITY") {
        return Ok(read_entity(alloc, rest)?.map(Declaration::Entity));
    }
    if is_keyword(word, b"NOTATION") {
        return Ok(read_notation(alloc, rest)?.map(Declaration::Notation));
    }
    if is_keyword(word, b"SHORTREF") {
        return Ok(read_shortref(alloc, rest)?.map(Declaration::Shortref));
    }
    if is_keyword(word, b"USEMAP") {
        return Ok(read_usemap(alloc, rest)?.map(Declaration::Usemap));
    }
    if is_keyword(word, b"DOCTYPE") {
        return Ok(read_doctype(alloc, rest)?.map(Declaration::Doctype));
    }
    Ok(None)
}
