ghost use Rattle.std.specs.Prelude.{◌≡◌, ◌+◌, ◌^◌, ◌<◌};
ghost use Rattle.std.specs.Option.{option_copied};
ghost use Rattle.sgml_model.specs.Term.{required, first_required};
ghost use Rattle.sgml_model.specs.View.{view};
ghost use Rattle.sgml_automaton.specs.Members.{terms_of};
ghost use Rattle.sgml_automaton.specs.Position.{room, rooms, and_rooms, bits_of, at, at_order, at_some, at_member, required_begun};

use crate::place::{finished_at, has, room};
use sgml_model::{Term, first_required};
use sgml_text::Name;

/// The element that must come after the token k, where there is one.
#[cycle(required_at)]
pub fn required_at<'a>(term: &'a Term, o: usize, k: u32, bits: &[bool]) -> Option<&'a Name>
    requires { o + room (view term.now) < 2 ^ 64 }
    ensures { option_copied result ≡ required (at (view term.now) o k (bits_of bits.now)) }
{
    match term {
        Term::Empty => None,
        Term::Name(_, _) => None,
        Term::Pcdata(_) => None,
        Term::Seq(members) => order_required(members, o, k, bits),
        Term::Or(members) => some_required(members, o, k, bits),
        Term::And(members) => member_required(members, o, k, bits),
        Term::Opt(member) => required_at(member, o, k, bits),
        Term::Plus(member) => required_at(member, o, k, bits),
        Term::Rep(member) => required_at(member, o, k, bits),
        Term::Member(_, _) => None,
        Term::Round(_, _) => None,
    }
}

#[cycle(required_at)]
fn order_required<'a>(members: &'a [Term], o: usize, k: u32, bits: &[bool]) -> Option<&'a Name>
    requires { o + rooms (terms_of members.now) < 2 ^ 64 }
    ensures { option_copied result ≡ required (at_order (terms_of members.now) o k (bits_of bits.now)) }
{
    let mut at = o;
    for i in 0..members.len() {
        if has(&members[i], k) {
            if finished_at(&members[i], at, k, bits) {
                return first_required(&members[i + 1..]);
            }
            return required_at(&members[i], at, k, bits);
        }
        at += room(&members[i]);
    }
    None
}

#[cycle(required_at)]
fn some_required<'a>(members: &'a [Term], o: usize, k: u32, bits: &[bool]) -> Option<&'a Name>
    requires { o + rooms (terms_of members.now) < 2 ^ 64 }
    ensures { option_copied result ≡ required (at_some (terms_of members.now) o k (bits_of bits.now)) }
{
    let mut at = o;
    for i in 0..members.len() {
        if has(&members[i], k) {
            return required_at(&members[i], at, k, bits);
        }
        at += room(&members[i]);
    }
    None
}

// Of a begun member, unless it is done.
#[cycle(required_at)]
fn member_required<'a>(members: &'a [Term], o: usize, k: u32, bits: &[bool]) -> Option<&'a Name>
    requires { o + and_rooms (terms_of members.now) < 2 ^ 64 }
    ensures { option_copied result ≡ required_begun (at_member (terms_of members.now) o k (bits_of bits.now)) }
{
    let mut at = o;
    for i in 0..members.len() {
        if has(&members[i], k) {
            if finished_at(&members[i], at + 1, k, bits) {
                return None;
            }
            return required_at(&members[i], at + 1, k, bits);
        }
        at += 1 + room(&members[i]);
    }
    None
}
