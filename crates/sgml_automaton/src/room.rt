// How many AND members a model has.
ghost use Rattle.std.specs.Prelude.{◌≡◌, IfSome};
ghost use Rattle.sgml_model.specs.View.{view};
ghost use Rattle.sgml_automaton.specs.Members.{terms_of};
ghost use Rattle.sgml_automaton.specs.Position.{room, rooms, and_rooms};

use sgml_model::Term;

/// The number of AND members, where it is a u32.
#[cycle(counted)]
pub fn counted_room(term: &Term) -> Option<u32>
    ensures { IfSome result (λ n. n ≡ room (view term.now)) }
{
    match term {
        Term::Empty => Some(0),
        Term::Name(_, _) => Some(0),
        Term::Pcdata(_) => Some(0),
        Term::Seq(members) => counted_rooms(members),
        Term::Or(members) => counted_rooms(members),
        Term::And(members) => counted_and_rooms(members),
        Term::Opt(member) => counted_room(member),
        Term::Plus(member) => counted_room(member),
        Term::Rep(member) => counted_room(member),
        Term::Member(_, _) => Some(0),
        Term::Round(_, _) => Some(0),
    }
}

#[cycle(counted)]
fn counted_rooms(members: &[Term]) -> Option<u32>
    ensures { IfSome result (λ n. n ≡ rooms (terms_of members.now)) }
{
    let mut all: u32 = 0;
    for i in 0..members.len() {
        let more = counted_room(&members[i])?;
        all = all.checked_add(more)?;
    }
    Some(all)
}

#[cycle(counted)]
fn counted_and_rooms(members: &[Term]) -> Option<u32>
    ensures { IfSome result (λ n. n ≡ and_rooms (terms_of members.now)) }
{
    let mut all: u32 = 0;
    for i in 0..members.len() {
        let more = counted_room(&members[i])?;
        all = all.checked_add(more)?.checked_add(1)?;
    }
    Some(all)
}
