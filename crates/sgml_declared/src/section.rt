// The status of a marked section.
ghost use Rattle.std.specs.Prelude.{◌≡◌, ◌++◌, ◌∷◌, [], IfOk, IfErr, IsSome, List, OnOk, OnErr, Ok};
ghost use Rattle.sgml_decl_lexemes.specs.decl_parts.declared.ends.Construct.TheVariants.{SectionStart};
ghost use Rattle.sgml_theory_standing.specs.theory_spelling.Content.{is_data_status, keywords_in, status_reason};
ghost use Rattle.sgml_declared.specs.Taking.{Ends, StatusIsTaken, StatusIsStopped};
ghost use Rattle.sgml_declared.specs.Over.{IsOver};
ghost use Rattle.sgml_declared.specs.Statuses.{is_long_status, has_long_status, AddsKeyword, TellsStatus};

use crate::error::TakeError;
use crate::options::Options;
use crate::reading::{go_back, read_section_start};
use crate::subset::ExternalSubset;
use sgml_decl_lexemes::Lexeme;
use sgml_dtd::Dtd;
use sgml_entity::{InputStack, Texts};
use sgml_marked::{Status, is_keyword, status_of};
use sgml_names::is_long;
use sgml_syntax::Syntax;
use sgml_text::{Memory, Name, Reason, RefusalError};
use std::alloc::Global;

/// Reads the start of a marked section at the top of the stack, which has so many bytes, and tells its
/// status (10.4). In a document type no section has data for its content.
pub fn section_status(
    options: &Options,
    alloc: Global,
    dtd: &Dtd,
    subset: &Option<ExternalSubset>,
    texts: &Texts,
    stack: &mut InputStack,
    length: u64,
    in_type: bool,
) -> Result<Status, TakeError>
    requires whole { Ends SectionStart dtd.now texts.now stack.old length }
    requires named { IsSome subset.now → IsSome dtd.now.name }
    ensures ok { IfOk result (StatusIsTaken in_type options.now dtd.now subset.now texts.now stack.old stack.new) }
    ensures over { OnOk result (IsOver SectionStart dtd.now texts.now stack.old stack.new) }
    ensures err { IfErr result (StatusIsStopped in_type options.now dtd.now subset.now texts.now stack.old) }
    ensures err_stack { OnErr result (stack.new ≡ stack.old) }
{
    let mark = stack.mark();
    let lexemes = match read_section_start(options, alloc, dtd, subset, texts, stack, length) {
        Ok(lexemes) => lexemes,
        Err(error) => return Err(error),
    };
    match status_told(alloc, dtd.syntax(), lexemes.items(), in_type) {
        Ok(status) => Ok(status),
        Err(RefusalError::Refused(reason)) => {
            go_back(stack, mark);
            Err(TakeError::Refused(reason))
        }
        Err(RefusalError::Memory) => {
            go_back(stack, mark);
            Err(TakeError::Memory)
        }
    }
}

// The status that these lexemes tell.
fn status_told(
    alloc: Global,
    syntax: &Syntax,
    lexemes: &[Lexeme],
    in_type: bool,
) -> Result<Status, RefusalError>
    ensures { TellsStatus syntax.now lexemes.now in_type result }
{
    let keywords = keywords_in(alloc, lexemes)?;
    match status_of(&keywords) {
        Ok(status) => {
            if in_type && is_data_status(status) {
                Err(RefusalError::Refused(Reason::DeclarationPlace))
            } else {
                Ok(status)
            }
        }
        Err(_) => Err(RefusalError::Refused(status_reason(syntax, lexemes))),
    }
}

fn is_data_status(status: Status) -> bool
    ensures { result ≡ is_data_status status }
{
    match status {
        Status::Cdata => true,
        Status::Rcdata => true,
        Status::Ignore => false,
        Status::Include => false,
    }
}

// Why there is no status, where a word is no status keyword.
#[tactic(auto, using(crate::proofs::Statuses::long_status_is))]
fn status_reason(syntax: &Syntax, lexemes: &[Lexeme]) -> Reason
    ensures { result ≡ status_reason syntax.now lexemes.now }
{
    if has_long_status(syntax, lexemes) {
        Reason::NameLength
    } else {
        Reason::StatusUnknown
    }
}

// Whether a word that is no status keyword passes NAMELEN (10.4.2, 13.4.8).
fn has_long_status(syntax: &Syntax, lexemes: &[Lexeme]) -> bool
    ensures { result ≡ has_long_status syntax.now lexemes.now }
{
    let mut rest = lexemes;
    'lexemes: while let [lexeme, after @ ..] = rest {
        match lexeme {
            Lexeme::Name(name) => {
                if is_long_status(syntax, name.items()) {
                    return true;
                }
                rest = after;
            }
            Lexeme::Token(token) => return is_long_status(syntax, token.items()),
            _ => return false,
        }
    }
    false
}

fn is_long_status(syntax: &Syntax, word: &[u8]) -> bool
    ensures { result ≡ is_long_status syntax.now word.now }
{
    !is_keyword(word) && is_long(syntax, word)
}

// The names among the lexemes.
fn keywords_in(alloc: Global, lexemes: &[Lexeme]) -> Result<Vec<Name>, Memory>
    ensures { IfOk result (λ names. names.items ≡ keywords_in lexemes.now) }
{
    let mut names = Vec::new(alloc);
    let mut rest = lexemes;
    'lexemes: while let [lexeme, after @ ..] = rest {
        add_keyword(alloc, lexeme, &mut names)?;
        rest = after;
    }
    Ok(names)
}

fn add_keyword(alloc: Global, lexeme: &Lexeme, names: &mut Vec<Name>) -> Result<(), Memory>
    ensures { OnOk result (AddsKeyword names.old.items names.new.items lexeme.now) }
{
    if let Lexeme::Name(name) = lexeme {
        names.push(name.copy(alloc)?)?;
    }
    Ok(())
}
