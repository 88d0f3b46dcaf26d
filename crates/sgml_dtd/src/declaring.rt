// Entities, notations and the head of a document type: why they are refused, and what they declare.
ghost use Rattle.std.specs.Prelude.{◌≡◌, ◌+◌, ◌<◌, ◌∷◌, ◌++◌, [], None, Some, IfOk, IfErr, OnOk, OnErr};
ghost use Rattle.std.specs.List.{list_any};
ghost use Rattle.sgml_text.specs.Refusals.{IsRefusal};
ghost use Rattle.sgml_entity.specs.sgml_names.Naming.{general_name};
ghost use Rattle.sgml_dtd.specs.Doctypes.{body_in, entity_in, notation_in, with_entity};
ghost use Rattle.sgml_dtd.specs.Rows.{literal_text, is_long_literal, has_long_literal, has_long_notation, entity_reason, notation_reason, head_reason, lacks_notation};

use sgml_dtd_elements::decl_forms::{DoctypeHead, EntityDeclaration, NotationDeclaration};
use sgml_dtd_elements::decl_lexemes::Lexeme;
use sgml_entity::names::{TABLE_LIMIT, entity_name, general_name, is_long};
use sgml_entity::{Body, Entities, Entity};
use sgml_syntax::Syntax;
use sgml_text::{Memory, Name, Reason, RefusalError, Text};
use std::alloc::Global;

fn literal_text(lexeme: &Lexeme) -> &[u8]
    ensures { result.now ≡ literal_text lexeme.now }
{
    match lexeme {
        Lexeme::Literal(text) => text.items(),
        _ => b"",
    }
}

fn is_long_literal(syntax: &Syntax, lexeme: &Lexeme) -> bool
    ensures { result ≡ is_long_literal syntax.now lexeme.now }
{
    literal_text(lexeme).len() > syntax.quantities.litlen as usize
}

// Whether a literal of a declaration passes LITLEN.
fn has_long_literal(syntax: &Syntax, lexemes: &[Lexeme]) -> bool
    ensures { result ≡ has_long_literal syntax.now lexemes.now }
{
    for lexeme in lexemes {
        if is_long_literal(syntax, lexeme) {
            return true;
        }
    }
    false
}

fn has_long_notation(syntax: &Syntax, body: &Body) -> bool
    ensures { result ≡ has_long_notation syntax.now body.now }
{
    match body {
        Body::ExternalData { notation, .. } => is_long(syntax, notation.items()),
        _ => false,
    }
}

// Why an entity declaration of these lexemes is refused.
fn entity_reason(
    syntax: &Syntax,
    lexemes: &[Lexeme],
    declaration: &EntityDeclaration,
) -> Option<Reason>
    ensures { result ≡ entity_reason syntax.now lexemes.now declaration.now }
{
    if is_long(syntax, declaration.name.items()) || has_long_notation(syntax, &declaration.body) {
        Some(Reason::NameLength)
    } else if has_long_literal(syntax, lexemes) {
        Some(Reason::LiteralLimit)
    } else {
        None
    }
}

fn body_in(alloc: Global, syntax: &Syntax, body: Body) -> Result<Body, Memory>
    ensures { IfOk result (λ new. new ≡ body_in syntax.now body) }
{
    match body {
        Body::ExternalData {
            kind,
            external,
            notation,
        } => {
            let notation = general_name(alloc, syntax, notation.items())?;
            Ok(Body::ExternalData {
                kind,
                external,
                notation,
            })
        }
        Body::Sgml(text) => Ok(Body::Sgml(text)),
        Body::Cdata(text) => Ok(Body::Cdata(text)),
        Body::Sdata(text) => Ok(Body::Sdata(text)),
        Body::Pi(text) => Ok(Body::Pi(text)),
        Body::External(external) => Ok(Body::External(external)),
    }
}

fn entity_in(
    alloc: Global,
    syntax: &Syntax,
    base: &Text,
    declaration: EntityDeclaration,
) -> Result<Entity, Memory>
    ensures { IfOk result (λ entity. entity ≡ entity_in syntax.now base.now declaration) }
{
    let EntityDeclaration { space, name, body } = declaration;
    let name = entity_name(alloc, syntax, name.items())?;
    let body = body_in(alloc, syntax, body)?;
    Ok(Entity {
        name,
        space,
        body,
        base: base.copy(alloc)?,
    })
}

// Declares an entity (10.5), in a file of this name.
pub(crate) fn declare_entity(
    alloc: Global,
    syntax: &Syntax,
    entities: &mut Entities,
    lexemes: &[Lexeme],
    base: &Text,
    declaration: EntityDeclaration,
) -> Result<(), RefusalError>
    ensures none { OnOk result (entity_reason syntax.now lexemes.now declaration ≡ None) }
    ensures ok { OnOk result (entities.new.entities ≡ with_entity entities.old.entities (entity_in syntax.now base.now declaration)) }
    ensures refused { IfErr result (IsRefusal (entity_reason syntax.now lexemes.now declaration)) }
    ensures err { OnErr result (entities.new.entities ≡ entities.old.entities) }
    ensures notations { entities.new.notations ≡ entities.old.notations }
{
    if let Some(reason) = entity_reason(syntax, lexemes, &declaration) {
        return Err(RefusalError::Refused(reason));
    }
    let entity = entity_in(alloc, syntax, base, declaration)?;
    if entities.count() as usize + 1 >= TABLE_LIMIT {
        return Err(RefusalError::Memory);
    }
    entities.declare(entity)?;
    Ok(())
}

// Declares a notation (11.4).
pub(crate) fn declare_notation(
    alloc: Global,
    syntax: &Syntax,
    entities: &mut Entities,
    lexemes: &[Lexeme],
    declaration: NotationDeclaration,
) -> Result<(), RefusalError>
    ensures none { OnOk result (notation_reason syntax.now lexemes.now entities.old.notations declaration ≡ None) }
    ensures ok { OnOk result (entities.new.notations ≡ entities.old.notations ++ notation_in syntax.now declaration ∷ []) }
    ensures refused { IfErr result (IsRefusal (notation_reason syntax.now lexemes.now entities.old.notations declaration)) }
    ensures err { OnErr result (entities.new.notations ≡ entities.old.notations) }
    ensures entities { entities.new.entities ≡ entities.old.entities }
{
    let NotationDeclaration { name, external } = declaration;
    if is_long(syntax, name.items()) {
        return Err(RefusalError::Refused(Reason::NameLength));
    }
    if has_long_literal(syntax, lexemes) {
        return Err(RefusalError::Refused(Reason::LiteralLimit));
    }
    let name = general_name(alloc, syntax, name.items())?;
    if entities.notations() as usize + 1 >= TABLE_LIMIT {
        return Err(RefusalError::Memory);
    }
    if entities.declare_notation(name, external)? {
        Ok(())
    } else {
        Err(RefusalError::Refused(Reason::NotationTwice))
    }
}

// The name of a document type (11.1), where it has none yet.
pub(crate) fn declared_name(
    alloc: Global,
    syntax: &Syntax,
    lexemes: &[Lexeme],
    name: &Option<Name>,
    head: &DoctypeHead,
) -> Result<Name, RefusalError>
    ensures none { OnOk result (head_reason syntax.now lexemes.now name.now head.now ≡ None) }
    ensures ok { IfOk result (λ new. new ≡ general_name syntax.now head.now.name) }
    ensures refused { IfErr result (IsRefusal (head_reason syntax.now lexemes.now name.now head.now)) }
{
    if name.is_some() {
        return Err(RefusalError::Refused(Reason::DeclarationPlace));
    }
    if is_long(syntax, head.name.items()) {
        return Err(RefusalError::Refused(Reason::NameLength));
    }
    if has_long_literal(syntax, lexemes) {
        return Err(RefusalError::Refused(Reason::LiteralLimit));
    }
    Ok(general_name(alloc, syntax, head.name.items())?)
}

fn lacks_notation(entities: &Entities, body: &Body) -> bool
    ensures { result ≡ lacks_notation entities.now.notations body.now }
{
    match body {
        Body::ExternalData { notation, .. } => entities.notation_number(notation).is_none(),
        _ => false,
    }
}

// Whether the notation of some external data has no declaration.
pub(crate) fn any_lacks_notation(entities: &Entities) -> bool
    ensures { result ≡ list_any (λ e. lacks_notation entities.now.notations e.body) entities.now.entities }
{
    for number in 0..entities.count() {
        if lacks_notation(entities, &entities.entity(number + 2).body) {
            return true;
        }
    }
    false
}
