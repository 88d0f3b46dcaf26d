// Names that stand twice. Most lists have none twice, which the hashes of the names tell.
ghost use Rattle.std.specs.Prelude.{◌≡◌, [], ◌++◌, false, map, IfOk, OnOk};
ghost use Rattle.std.specs.Bool.{OnTrue};
ghost use Rattle.std.specs.List.{flat_map};
ghost use Rattle.sgml_names.specs.Lists.{repeats};
ghost use Rattle.sgml_hashes.specs.Hashes.{hash_of};
ghost use Rattle.sgml_dtd_attlists.specs.Interpreted.{group_of};

use crate::interpreting::group_of;
use sgml_attr::Definition;
use sgml_hashes::NameHashes;
use sgml_names::{NameIndex, any_seen, see};
use sgml_text::{Memory, Name};
use std::alloc::Global;

/// Whether an attribute stands twice.
pub(crate) fn names_twice(alloc: Global, definitions: &[Definition]) -> Result<bool, Memory>
    ensures { IfOk result (λ twice. twice ≡ repeats [] (map (λ d. d.name) definitions.now)) }
{
    if has_names_apart(alloc, definitions)? {
        return Ok(false);
    }
    name_again(alloc, definitions)
}

/// Whether a token stands twice in the groups.
pub(crate) fn tokens_twice(alloc: Global, definitions: &[Definition]) -> Result<bool, Memory>
    ensures { IfOk result (λ twice. twice ≡ repeats [] (flat_map (λ d. group_of d.declared) definitions.now)) }
{
    if has_tokens_apart(alloc, definitions)? {
        return Ok(false);
    }
    token_again(alloc, definitions)
}

// Whether the attributes are told apart by their hashes.
fn has_names_apart(alloc: Global, definitions: &[Definition]) -> Result<bool, Memory>
    ensures { IfOk result (λ apart. OnTrue apart (repeats [] (map (λ d. d.name) definitions.now) ≡ false)) }
{
    let mut hashes = NameHashes::new(alloc);
    let mut rest = definitions;
    'definitions: while let [definition, after @ ..] = rest {
        hashes.note(definition.name.items())?;
        rest = after;
    }
    let apart = hashes.all_differ();
    Ok(apart)
}

// Whether the tokens are.
fn has_tokens_apart(alloc: Global, definitions: &[Definition]) -> Result<bool, Memory>
    ensures { IfOk result (λ apart. OnTrue apart (repeats [] (flat_map (λ d. group_of d.declared) definitions.now) ≡ false)) }
{
    let mut hashes = NameHashes::new(alloc);
    let mut rest = definitions;
    'definitions: while let [definition, after @ ..] = rest {
        note_all(&mut hashes, group_of(&definition.declared))?;
        rest = after;
    }
    let apart = hashes.all_differ();
    Ok(apart)
}

fn note_all(hashes: &mut NameHashes, names: &[Name]) -> Result<(), Memory>
    ensures { OnOk result (hashes.new ≡ hashes.old ++ map hash_of names.now) }
{
    let mut rest = names;
    'names: while let [name, after @ ..] = rest {
        hashes.note(name.items())?;
        rest = after;
    }
    Ok(())
}

// Whether an attribute is one of those before it.
fn name_again(alloc: Global, definitions: &[Definition]) -> Result<bool, Memory>
    ensures { IfOk result (λ twice. twice ≡ repeats [] (map (λ d. d.name) definitions.now)) }
{
    let mut seen = NameIndex::new(alloc);
    let mut rest = definitions;
    'definitions: while let [definition, after @ ..] = rest {
        if !see(&mut seen, definition.name.items())? {
            return Ok(true);
        }
        rest = after;
    }
    Ok(false)
}

// Whether a token is.
#[tactic(auto, using(sgml_names::proofs::Repeating::repeats_append))]
fn token_again(alloc: Global, definitions: &[Definition]) -> Result<bool, Memory>
    ensures { IfOk result (λ twice. twice ≡ repeats [] (flat_map (λ d. group_of d.declared) definitions.now)) }
{
    let mut seen = NameIndex::new(alloc);
    let mut rest = definitions;
    'definitions: while let [definition, after @ ..] = rest {
        if any_seen(&mut seen, group_of(&definition.declared))? {
            return Ok(true);
        }
        rest = after;
    }
    Ok(false)
}
