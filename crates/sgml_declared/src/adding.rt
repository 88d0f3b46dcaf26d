// How the head of a document type declaration is added.
ghost use Rattle.std.specs.Prelude.{◌≡◌, ◌<◌, false, true, None, Some, Ok, IfOk, IfErr, OnOk, OnErr, length, option_map};
ghost use Rattle.sgml_entity.specs.Stack.{opened, refusal};
ghost use Rattle.sgml_entity.specs.Texts.{text_of};
ghost use Rattle.sgml_decl_lexemes.specs.Sources.{reason_of};
ghost use Rattle.sgml_decl_forms.specs.declared.declaration.Declaration.TheVariants as form;
ghost use Rattle.sgml_decl_forms.specs.Declarations.{declaration_at};
ghost use Rattle.sgml_dtd.specs.Rows.{literal_text, is_long_literal, has_long_literal, head_reason};
ghost use Rattle.sgml_dtd.specs.Errors.{IsAfter};
ghost use Rattle.sgml_theory_standing.specs.theory_reading.Facets.{subset_number};
ghost use Rattle.sgml_declared.specs.declared.error.TakeError.TheVariants.{Refused};
ghost use Rattle.sgml_declared.specs.Adding.{head_said, opens_subset, named_file, against, IsNamed, IsHeadAdded, IsNotNamed, IsNotAdded, IsSubsetAsked, IsSubsetGiven, IsSubsetLacking, IsLacking, IsRefusedFor};

use crate::error::TakeError;
use crate::head::Head;
use crate::options::Options;
use crate::subset::ExternalSubset;
use sgml_catalog::Kind;
use sgml_decl_forms::{Declaration, DoctypeHead, read_declaration};
use sgml_decl_lexemes::{Lexeme, Lexemes};
use sgml_dtd::Dtd;
use sgml_entity::{External, InputStack, StackRefused, Texts};
use sgml_names::{general_name, is_long};
use sgml_syntax::Syntax;
use sgml_text::{Memory, Reason, RefusalError, Text};
use std::alloc::Global;

/// Adds the head that these lexemes are of, which stands in a file of the name `base`, and opens the
/// external subset where no internal one begins.
pub(crate) fn add_head(
    options: &Options,
    alloc: Global,
    dtd: &mut Dtd,
    texts: &Texts,
    asked: &Option<Text>,
    stack: &mut InputStack,
    lexemes: &Lexemes,
    base: Text,
) -> Result<Head, TakeError>
    requires { 0 < length stack.old.places }
    ensures ok { IfOk result (IsHeadAdded options.now dtd.old texts.now asked.now lexemes.now base dtd.new stack.old stack.new) }
    ensures err { IfErr result (IsNotAdded options.now dtd.old texts.now asked.now lexemes.now base stack.old) }
    ensures err_dtd { OnErr result (dtd.new ≡ dtd.old) }
    ensures err_stack { OnErr result (stack.new ≡ stack.old) }
{
    let said = match read_declaration(alloc, lexemes.items()) {
        Ok(said) => said,
        Err(_) => return Err(TakeError::Memory),
    };
    let head = match head_said(said) {
        Some(head) => head,
        None => return Err(TakeError::Refused(Reason::DeclarationSyntax)),
    };
    match add_name(
        options, alloc, dtd, texts, asked, stack, lexemes, &base, &head,
    ) {
        Ok(()) => Ok(Head {
            external: subset_named(head.external, base),
            subset: head.subset,
        }),
        Err(error) => Err(error),
    }
}

fn head_said(said: Option<Declaration>) -> Option<DoctypeHead>
    ensures { result ≡ head_said said }
{
    match said {
        Some(Declaration::Doctype(head)) => Some(head),
        Some(Declaration::Element(_)) => None,
        Some(Declaration::Attlist(_)) => None,
        Some(Declaration::Entity(_)) => None,
        Some(Declaration::Notation(_)) => None,
        Some(Declaration::Shortref(_)) => None,
        Some(Declaration::Usemap(_)) => None,
        None => None,
    }
}

fn subset_named(external: Option<External>, base: Text) -> Option<ExternalSubset>
    ensures { result ≡ option_map (λ x. record { external = x; base = base }) external }
{
    match external {
        Some(external) => Some(ExternalSubset::new(external, base)),
        None => None,
    }
}

// Adds the name that the head says, and opens the subset.
fn add_name(
    options: &Options,
    alloc: Global,
    dtd: &mut Dtd,
    texts: &Texts,
    asked: &Option<Text>,
    stack: &mut InputStack,
    lexemes: &Lexemes,
    base: &Text,
    head: &DoctypeHead,
) -> Result<(), TakeError>
    requires stacked { 0 < length stack.old.places }
    requires says { declaration_at lexemes.now ≡ Some (form.Doctype head.now) }
    ensures ok { OnOk result (IsNamed options.now dtd.old texts.now asked.now lexemes.now base.now dtd.new stack.old stack.new head.now) }
    ensures err { IfErr result (IsNotNamed options.now dtd.old texts.now asked.now lexemes.now base.now stack.old head.now) }
    ensures err_dtd { OnErr result (dtd.new ≡ dtd.old) }
    ensures err_stack { OnErr result (stack.new ≡ stack.old) }
{
    match &head.external {
        Some(external) => {
            if head.subset {
                add_before(
                    options, alloc, dtd, texts, asked, lexemes, base, head, external,
                )
            } else {
                add_and_open(
                    options, alloc, dtd, texts, asked, stack, lexemes, base, head, external,
                )
            }
        }
        None => add(dtd, lexemes, base, head),
    }
}

fn add(dtd: &mut Dtd, lexemes: &Lexemes, base: &Text, head: &DoctypeHead) -> Result<(), TakeError>
    requires { declaration_at lexemes.now ≡ Some (form.Doctype head.now) }
    ensures ok { OnOk result (IsAfter base.now lexemes.now dtd.old dtd.new (form.Doctype head.now)) }
    ensures err { IfErr result (IsRefusedFor dtd.old lexemes.now head.now) }
    ensures err_dtd { OnErr result (dtd.new ≡ dtd.old) }
{
    match dtd.add(lexemes, base) {
        Ok(()) => Ok(()),
        Err(RefusalError::Refused(reason)) => Err(TakeError::Refused(reason)),
        Err(RefusalError::Memory) => Err(TakeError::Memory),
    }
}

// The external subset comes after the internal one that begins.
fn add_before(
    options: &Options,
    alloc: Global,
    dtd: &mut Dtd,
    texts: &Texts,
    asked: &Option<Text>,
    lexemes: &Lexemes,
    base: &Text,
    head: &DoctypeHead,
    external: &External,
) -> Result<(), TakeError>
    requires says { declaration_at lexemes.now ≡ Some (form.Doctype head.now) }
    ensures ok { OnOk result (IsAfter base.now lexemes.now dtd.old dtd.new (form.Doctype head.now)) }
    ensures given { OnOk result (IsSubsetGiven options.now dtd.old.syntax texts.now asked.now base.now head.now.name external.now) }
    ensures err { IfErr result (IsRefusedFor dtd.old lexemes.now head.now) }
    ensures err_dtd { OnErr result (dtd.new ≡ dtd.old) }
{
    match given_as_asked(
        options,
        alloc,
        dtd.syntax(),
        texts,
        asked,
        base,
        head,
        external,
    ) {
        Ok(()) => add(dtd, lexemes, base, head),
        Err(_) => Err(TakeError::Memory),
    }
}

// The rows in their order: the subset's text isn't there; what is against the head; why the text isn't
// opened besides.
fn add_and_open(
    options: &Options,
    alloc: Global,
    dtd: &mut Dtd,
    texts: &Texts,
    asked: &Option<Text>,
    stack: &mut InputStack,
    lexemes: &Lexemes,
    base: &Text,
    head: &DoctypeHead,
    external: &External,
) -> Result<(), TakeError>
    requires stacked { 0 < length stack.old.places }
    requires says { declaration_at lexemes.now ≡ Some (form.Doctype head.now) }
    requires external { head.now.external ≡ Some external.now }
    requires no_subset { head.now.subset ≡ false }
    ensures ok { OnOk result (IsNamed options.now dtd.old texts.now asked.now lexemes.now base.now dtd.new stack.old stack.new head.now) }
    ensures err { IfErr result (IsNotNamed options.now dtd.old texts.now asked.now lexemes.now base.now stack.old head.now) }
    ensures err_dtd { OnErr result (dtd.new ≡ dtd.old) }
    ensures err_stack { OnErr result (stack.new ≡ stack.old) }
{
    let size = match subset_size(
        options,
        alloc,
        dtd.syntax(),
        texts,
        asked,
        base,
        head,
        external,
    ) {
        Ok(size) => size,
        Err(error) => return Err(error),
    };
    if let Some(reason) = head_reason(dtd, lexemes.items(), head) {
        return Err(TakeError::Refused(reason));
    }
    if let Some(refused) = stack.refusal(1, size) {
        return Err(TakeError::Refused(reason_of(refused)));
    }
    match add(dtd, lexemes, base, head) {
        Ok(()) => open(stack, size),
        Err(error) => Err(error),
    }
}

// The stack has room for it.
fn open(stack: &mut InputStack, size: u64) -> Result<(), TakeError>
    requires stacked { 0 < length stack.old.places }
    requires room { refusal subset_number size stack.old ≡ None }
    ensures ok { result ≡ Ok tt }
    ensures stack { stack.new ≡ opened subset_number size stack.old }
{
    match stack.push(1, size) {
        Ok(()) => Ok(()),
        Err(_) => Err(TakeError::Memory),
    }
}

// How long the text of the external subset is that was given, which is the one in its file.
fn subset_size(
    options: &Options,
    alloc: Global,
    syntax: &Syntax,
    texts: &Texts,
    asked: &Option<Text>,
    base: &Text,
    head: &DoctypeHead,
    external: &External,
) -> Result<u64, TakeError>
    ensures ok { IfOk result (λ size. option_map length (text_of texts.now subset_number) ≡ Some size) }
    ensures asked { OnOk result (IsSubsetAsked options.now syntax.now asked.now base.now head.now.name external.now) }
    ensures err { IfErr result (IsSubsetLacking options.now syntax.now texts.now base.now head.now.name external.now) }
{
    let file = subset_file(options, alloc, syntax, base, head, external)?;
    match texts.get(1) {
        Some(text) => {
            if is_asked(asked, &file) {
                Ok(text.len() as u64)
            } else {
                Err(TakeError::Memory)
            }
        }
        None => Err(lacking(file)),
    }
}

// A text that was given for the external subset is the one in its file.
fn given_as_asked(
    options: &Options,
    alloc: Global,
    syntax: &Syntax,
    texts: &Texts,
    asked: &Option<Text>,
    base: &Text,
    head: &DoctypeHead,
    external: &External,
) -> Result<(), Memory>
    ensures { OnOk result (IsSubsetGiven options.now syntax.now texts.now asked.now base.now head.now.name external.now) }
{
    if texts.get(1).is_none() {
        return Ok(());
    }
    let file = subset_file(options, alloc, syntax, base, head, external)?;
    if is_asked(asked, &file) {
        Ok(())
    } else {
        Err(Memory)
    }
}

// The file of the external subset.
fn subset_file(
    options: &Options,
    alloc: Global,
    syntax: &Syntax,
    base: &Text,
    head: &DoctypeHead,
    external: &External,
) -> Result<Option<Text>, Memory>
    ensures { IfOk result (λ file. file ≡ named_file options.now syntax.now head.now.name external.now base.now) }
{
    let name = general_name(alloc, syntax, head.name.items())?;
    options.file_name(alloc, Kind::Doctype, &name, external, base)
}

// Whether this file was asked for.
fn is_asked(asked: &Option<Text>, file: &Option<Text>) -> bool
    ensures { result ≡ true → asked.now ≡ file.now }
{
    match (asked, file) {
        (Some(asked), Some(file)) => asked == file,
        _ => false,
    }
}

fn lacking(file: Option<Text>) -> TakeError
    ensures { IsLacking None file result }
{
    match file {
        Some(file) => TakeError::Wanted { entity: 1, file },
        None => TakeError::Refused(Reason::Unresolved),
    }
}

fn reason_of(refused: StackRefused) -> Reason
    ensures { result ≡ reason_of refused }
{
    match refused {
        StackRefused::Recursive => Reason::Recursive,
        StackRefused::EntityLevel => Reason::EntityLevel,
        StackRefused::Expansion => Reason::Expansion,
    }
}

// The first reason against a head.
fn head_reason(dtd: &Dtd, lexemes: &[Lexeme], head: &DoctypeHead) -> Option<Reason>
    ensures { result ≡ head_reason dtd.now.syntax lexemes.now dtd.now.name head.now }
{
    if dtd.has_doctype() {
        Some(Reason::DeclarationPlace)
    } else if is_long(dtd.syntax(), head.name.items()) {
        Some(Reason::NameLength)
    } else if has_long_literal(dtd.syntax(), lexemes) {
        Some(Reason::LiteralLimit)
    } else {
        None
    }
}

// Whether a literal of a declaration passes LITLEN.
fn has_long_literal(syntax: &Syntax, lexemes: &[Lexeme]) -> bool
    ensures { result ≡ has_long_literal syntax.now lexemes.now }
{
    for lexeme in lexemes {
        if is_long_literal(syntax, lexeme) {
            return true;
        }
    }
    false
}

fn is_long_literal(syntax: &Syntax, lexeme: &Lexeme) -> bool
    ensures { result ≡ is_long_literal syntax.now lexeme.now }
{
    literal_text(lexeme).len() > syntax.quantities.litlen as usize
}

fn literal_text(lexeme: &Lexeme) -> &[u8]
    ensures { result.now ≡ literal_text lexeme.now }
{
    match lexeme {
        Lexeme::Literal(text) => text.items(),
        _ => b"",
    }
}
