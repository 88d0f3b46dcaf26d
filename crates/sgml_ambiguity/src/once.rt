// Whether each name of a model has one token: the test that spares most models the lists of tokens.
// Names whose hashes are alike are taken for one.
ghost use Rattle.std.specs.Prelude.{◌≡◌, ◌++◌, IfOk, OnOk, map};
ghost use Rattle.std.specs.Bool.{OnTrue};
ghost use Rattle.sgml_model.specs.View.{view, terms};
ghost use Rattle.sgml_ambiguity.specs.Once.{EachNameOnce, hashes_in, hashes_of};

use sgml_hashes::NameHashes;
use sgml_model::Term;
use sgml_text::Memory;
use std::alloc::Global;

// Notes the name of each token of a term, and the empty name for `#PCDATA`.
#[cycle(note)]
fn note(term: &Term, hashes: &mut NameHashes) -> Result<(), Memory>
    ensures { OnOk result (hashes.new ≡ hashes.old ++ hashes_in (view term.now)) }
{
    match term {
        Term::Empty => Ok(()),
        Term::Name(_, name) => hashes.note(name.items()),
        Term::Pcdata(_) => hashes.note(&[]),
        Term::Seq(members) => note_all(members, hashes),
        Term::Or(members) => note_all(members, hashes),
        Term::And(members) => note_all(members, hashes),
        Term::Opt(member) => note(member, hashes),
        Term::Plus(member) => note(member, hashes),
        Term::Rep(member) => note(member, hashes),
        Term::Member(begun, left) => {
            note_all(left, hashes)?;
            note(begun, hashes)
        }
        Term::Round(begun, group) => {
            note(group, hashes)?;
            note(begun, hashes)
        }
    }
}

#[cycle(note)]
fn note_all(members: &[Term], hashes: &mut NameHashes) -> Result<(), Memory>
    ensures { OnOk result (hashes.new ≡ hashes.old ++ hashes_of (terms (map view members.now))) }
{
    for i in (0..members.len()).rev() {
        note(&members[i], hashes)?;
    }
    Ok(())
}

/// Whether it is seen at once that no two tokens have one name, so that no two of one name can both come.
pub fn is_each_name_once(alloc: Global, term: &Term) -> Result<bool, Memory>
    ensures { IfOk result (λ once. OnTrue once (EachNameOnce (view term.now))) }
{
    let mut hashes = NameHashes::new(alloc);
    note(term, &mut hashes)?;
    let once = hashes.all_differ();
    Ok(once)
}
