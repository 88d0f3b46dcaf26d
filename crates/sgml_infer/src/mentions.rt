// Whether `#PCDATA` is a token of a model.
ghost use Rattle.std.specs.Prelude.{◌≡◌, map};
ghost use Rattle.sgml_model.specs.View.{view, terms};
ghost use Rattle.sgml_theory_reading.specs.Characters.{mentions_text, some_mentions};

use sgml_model::Term;

#[cycle(mentions)]
pub(crate) fn mentions_text(term: &Term) -> bool
    ensures { result ≡ mentions_text (view term.now) }
{
    match term {
        Term::Empty => false,
        Term::Name(_, _) => false,
        Term::Pcdata(_) => true,
        Term::Seq(members) => some_mentions(members),
        Term::Or(members) => some_mentions(members),
        Term::And(members) => some_mentions(members),
        Term::Opt(member) => mentions_text(member),
        Term::Plus(member) => mentions_text(member),
        Term::Rep(member) => mentions_text(member),
        Term::Member(begun, left) => mentions_text(begun) || some_mentions(left),
        Term::Round(begun, group) => mentions_text(begun) || mentions_text(group),
    }
}

#[cycle(mentions)]
fn some_mentions(members: &[Term]) -> bool
    ensures { result ≡ some_mentions (terms (map view members.now)) }
{
    for i in 0..members.len() {
        if mentions_text(&members[i]) {
            return true;
        }
    }
    false
}
