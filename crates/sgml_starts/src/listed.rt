// Values of one token or more.
ghost use Rattle.std.specs.Prelude.{◌≡◌, ◌<◌, ◌++◌, map, length, IfOk, IfSome, IsTrue, OnOk};
ghost use Rattle.std.specs.List.{list_all};
ghost use Rattle.sgml_text.specs.Units.{characters};
ghost use Rattle.sgml_attr.specs.Parts.{ended};
ghost use Rattle.sgml_attr.specs.Tokens.{token_of, tokens};
ghost use Rattle.sgml_starts.specs.Plain.{is_of_list, is_listed, IsListedValue};

use crate::judging::{folded, is_name_token, is_number, is_number_token};
use sgml_attr::{AttrValue, Declared};
use sgml_syntax::Syntax;
use sgml_text::{Memory, Name, NameSet, Names, is_name};
use std::alloc::Global;

// The tokens that stand between the SPACEs of these characters, folded.
fn tokens_of(alloc: Global, folding: bool, bytes: &[u8]) -> Result<Vec<Name>, Memory>
    ensures { IfOk result (λ names. names.items ≡ tokens folding (characters bytes.now)) }
{
    let mut names = Vec::new(alloc);
    let mut begun = 0;
    'parts: for (i, b) in bytes.iter().enumerate() {
        if *b == b' ' {
            add_token(alloc, folding, &bytes[begun..i], &mut names)?;
            begun = i + 1;
        }
    }
    add_token(alloc, folding, &bytes[begun..], &mut names)?;
    Ok(names)
}

fn add_token(alloc: Global, folding: bool, part: &[u8], names: &mut Vec<Name>) -> Result<(), Memory>
    ensures { OnOk result (names.new.items ≡ names.old.items ++ map (token_of folding) (ended (characters part.now))) }
{
    if part.is_empty() {
        return Ok(());
    }
    let name = folded(alloc, folding, part)?;
    names.push(name)?;
    Ok(())
}

// Whether a list of tokens is declared whose entities aren't asked for, and this is one of them.
fn is_of_list(set: &NameSet, declared: &Declared, bytes: &[u8]) -> bool
    ensures { result ≡ is_of_list set.now declared.now bytes.now }
{
    match declared {
        Declared::Names => is_name(bytes, *set),
        Declared::Idrefs => is_name(bytes, *set),
        Declared::Nmtokens => is_name_token(set, bytes),
        Declared::Numbers => is_number(bytes),
        Declared::Nutokens => is_number_token(set, bytes),
        _ => false,
    }
}

fn is_listed(syntax: &Syntax, declared: &Declared, name: &Name) -> bool
    ensures { result ≡ is_listed syntax.now declared.now name.now }
{
    let bytes = name.items();
    bytes.len() <= syntax.quantities.namelen as usize && is_of_list(&syntax.names, declared, bytes)
}

fn are_listed(syntax: &Syntax, declared: &Declared, names: &[Name]) -> bool
    ensures { result ≡ list_all (is_listed syntax.now declared.now) names.now }
{
    for name in names {
        if !is_listed(syntax, declared, name) {
            return false;
        }
    }
    true
}

/// The value that these characters are where a list of tokens is declared; none where anything is against it, or
/// something else is declared.
#[inline(never)]
pub(crate) fn listed_value(
    alloc: Global,
    syntax: &Syntax,
    declared: &Declared,
    bytes: &[u8],
) -> Option<AttrValue>
    ensures { IfSome result (λ v. IsListedValue syntax.now declared.now bytes.now v) }
{
    match tokens_of(alloc, syntax.general_fold, bytes) {
        Ok(names) => {
            if names.is_empty() || !are_listed(syntax, declared, &names) {
                return None;
            }
            Some(AttrValue::Tokens(Names::of(names)))
        }
        Err(_) => None,
    }
}
