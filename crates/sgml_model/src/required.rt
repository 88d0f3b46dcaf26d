ghost use Rattle.std.specs.Prelude.{◌≡◌, map, option_map};
ghost use Rattle.std.specs.Option.{option_copied};
ghost use Rattle.sgml_model.specs.Term.{required, first_required, sole_required};
ghost use Rattle.sgml_model.specs.View.{view, terms};

use crate::term::Term;
use sgml_text::Name;

impl Term {
    /// The element that must come next, where there is one.
    #[cycle(required)]
    pub fn required(&self) -> Option<&Name>
        ensures { option_copied result ≡ required (view self.now) }
    {
        match self {
            Term::Empty => None,
            Term::Name(_, name) => Some(name),
            Term::Pcdata(_) => None,
            Term::Seq(members) => first_required(members),
            Term::Or(members) => sole_required(members),
            Term::And(members) => sole_required(members),
            Term::Opt(_) => None,
            Term::Plus(member) => member.required(),
            Term::Rep(_) => None,
            Term::Member(begun, _) => {
                if begun.finished() {
                    None
                } else {
                    begun.required()
                }
            }
            Term::Round(begun, _) => begun.required(),
        }
    }
}

#[cycle(required)]
pub fn first_required(members: &[Term]) -> Option<&Name>
    ensures { option_copied result ≡ first_required (terms (map view members.now)) }
{
    for i in 0..members.len() {
        if !members[i].finished() {
            return members[i].required();
        }
    }
    None
}

#[cycle(required)]
fn sole_required(members: &[Term]) -> Option<&Name>
    ensures { option_copied result ≡ sole_required (terms (map view members.now)) }
{
    if members.len() == 1 {
        members[0].required()
    } else {
        None
    }
}
