// The file of an SGML declaration.
ghost use Rattle.std.specs.Prelude.{◌≡◌, ◌≤◌, IfSome, Err, drop, length};
ghost use Rattle.std.specs.List.{prefix_len};
ghost use Rattle.sgml_text.specs.Characters.{is_separator};
ghost use Rattle.sgml_io.specs.Causes.{HasCause, Rose};
ghost use Rattle.sgml_source.specs.Inputs.{most_bytes, fetched_in};
ghost use Rattle.sgml_settings.specs.BadFiles.{IsAbsentFile};
ghost use Rattle.sgml_settings.specs.Declarations.{IsDeclarationRead};
ghost use Rattle.sgml_settings.specs.Setting.{OrFails, ReadsDeclaration, DeclarationOf};

use crate::bad_file::{DECLARATION, SettingsError, bad_file};
use crate::text::read_text;
use sgml_io::Store;
use sgml_prolog::read_sgml;
use sgml_syntax::Syntax;
use sgml_text::{Reason, RefusalError, Text, is_separator};
use std::alloc::Global;

/// The syntax that the file of this name declares.
pub(crate) fn declaration_in<S: Store>(
    alloc: Global,
    store: &mut S,
    name: &Text,
) -> Result<Syntax, SettingsError>
    ensures read { IfSome (S.files store.old) (λ files. OrFails (ReadsDeclaration name.now (fetched_in most_bytes files name.now)) result) }
    ensures files { S.files store.new ≡ S.files store.old }
    ensures store { HasCause SettingsError.Store (S.faults store.old) (S.faults store.new) result }
    ensures absents { S.absents store.old ≤ S.absents store.new }
    ensures absent { IsAbsentFile result → Rose (S.absents store.old) (S.absents store.new) }
{
    let text = match read_text(alloc, store, DECLARATION, name) {
        Ok(text) => text,
        Err(error) => return Err(error),
    };
    declaration_of(alloc, name, text.items())
}

/// The syntax that this text of the file declares.
fn declaration_of(alloc: Global, name: &Text, text: &[u8]) -> Result<Syntax, SettingsError>
    ensures read { OrFails (DeclarationOf name.now text.now) result }
    ensures store { result ≡ Err SettingsError.Store → ⊥ }
    ensures there { IsAbsentFile result → ⊥ }
{
    match read_declaration(alloc, text) {
        Ok(syntax) => Ok(syntax),
        Err(FaultError::At(at, reason)) => {
            Err(bad_file(alloc, DECLARATION, name, text, at, reason))
        }
        Err(FaultError::Memory) => Err(SettingsError::Memory),
    }
}

/// Why a text is no SGML declaration.
#[derive(Clone, Copy, Debug, PartialEq, Eq)]
pub(crate) enum FaultError {
    /// At this offset, for this reason.
    At(u64, Reason),
    Memory,
}

/// One declaration, with separators alone before it and after it.
fn read_declaration(alloc: Global, text: &[u8]) -> Result<Syntax, FaultError>
    ensures { IsDeclarationRead text.now result }
{
    let before = separators(text);
    let own = behind(text, before);
    let (syntax, size) = match read_sgml(alloc, own) {
        Ok(read) => read,
        Err(RefusalError::Refused(reason)) => return Err(FaultError::At(before as u64, reason)),
        Err(RefusalError::Memory) => return Err(FaultError::Memory),
    };
    let end = before + size;
    let rest = behind(text, end);
    let other = end + separators(rest);
    if other < text.len() {
        return Err(FaultError::At(other as u64, Reason::BadDeclaration));
    }
    Ok(syntax)
}

/// What a text has from this offset on.
fn behind(text: &[u8], at: usize) -> &[u8]
    requires { at ≤ length text.now }
    ensures { result.now ≡ drop at text.now }
{
    &text[at..]
}

/// How many separators stand here.
fn separators(text: &[u8]) -> usize
    ensures value { result ≡ prefix_len is_separator text.now }
    ensures within { result ≤ length text.now }
{
    text.iter().take_while(|b| is_separator(**b)).count()
}
