ghost use Rattle.std.specs.Prelude.{◌≡◌, ◌+◌, ◌^◌, ◌<◌};
ghost use Rattle.std.specs.Option.{option_copied};
ghost use Rattle.sgml_model.specs.Term.{plus};
ghost use Rattle.sgml_model.specs.View.{view};
ghost use Rattle.sgml_automaton.specs.Members.{terms_of};
ghost use Rattle.sgml_automaton.specs.Position.{room, rooms, and_rooms, bits_of, at, at_order, at_some, at_member, left_at, next_by, next_in_order, next_of_some};

use crate::place::{bit, finished_at, has, member_finished, room};
use sgml_model::{Term, is_name, is_text};
use sgml_text::Name;

/// The number of the first token of the name that can come.
#[cycle(first)]
pub fn first_by(term: &Term, name: Option<&Name>) -> Option<u32>
    ensures { result ≡ next_by (view term.now) (option_copied name.entry) }
{
    match term {
        Term::Empty => None,
        Term::Name(number, own) => {
            if is_name(own, name) {
                Some(*number)
            } else {
                None
            }
        }
        Term::Pcdata(number) => { if is_text(name) { Some(*number) } else { None } }
        Term::Seq(members) => first_in_order(members, name),
        Term::Or(members) => first_of_some(members, name),
        Term::And(members) => first_of_some(members, name),
        Term::Opt(member) => first_by(member, name),
        Term::Plus(member) => first_by(member, name),
        Term::Rep(member) => first_by(member, name),
        Term::Member(begun, left) => match first_by(begun, name) {
            Some(number) => Some(number),
            None => {
                if begun.finished() {
                    first_of_some(left, name)
                } else {
                    None
                }
            }
        },
        Term::Round(begun, member) => match first_by(begun, name) {
            Some(number) => Some(number),
            None => {
                if begun.finished() {
                    first_by(member, name)
                } else {
                    None
                }
            }
        },
    }
}

#[cycle(first)]
fn first_in_order(members: &[Term], name: Option<&Name>) -> Option<u32>
    ensures { result ≡ next_in_order (terms_of members.now) (option_copied name.entry) }
{
    for i in 0..members.len() {
        if let Some(number) = first_by(&members[i], name) {
            return Some(number);
        }
        if !members[i].finished() {
            return None;
        }
    }
    None
}

#[cycle(first)]
fn first_of_some(members: &[Term], name: Option<&Name>) -> Option<u32>
    ensures { result ≡ next_of_some (terms_of members.now) (option_copied name.entry) }
{
    for i in 0..members.len() {
        if let Some(number) = first_by(&members[i], name) {
            return Some(number);
        }
    }
    None
}

/// The number of the first token of the name that can come after the token k.
#[cycle(next_at)]
pub fn next_at(term: &Term, o: usize, k: u32, bits: &[bool], name: Option<&Name>) -> Option<u32>
    requires { o + room (view term.now) < 2 ^ 64 }
    ensures { result ≡ next_by (at (view term.now) o k (bits_of bits.now)) (option_copied name.entry) }
{
    match term {
        Term::Empty => None,
        Term::Name(_, _) => None,
        Term::Pcdata(number) => { if is_text(name) { Some(*number) } else { None } }
        Term::Seq(members) => order_next(members, o, k, bits, name),
        Term::Or(members) => some_next(members, o, k, bits, name),
        Term::And(members) => match member_next(members, o, k, bits, name) {
            Some(number) => Some(number),
            None => {
                if member_finished(members, o, k, bits) {
                    left_next(members, o, k, bits, name)
                } else {
                    None
                }
            }
        },
        Term::Opt(member) => next_at(member, o, k, bits, name),
        Term::Plus(member) => round_next(member, o, k, bits, name),
        Term::Rep(member) => round_next(member, o, k, bits, name),
        Term::Member(_, _) => None,
        Term::Round(_, _) => None,
    }
}

#[cycle(next_at)]
fn round_next(member: &Term, o: usize, k: u32, bits: &[bool], name: Option<&Name>) -> Option<u32>
    requires { o + room (view member.now) < 2 ^ 64 }
    ensures { result ≡ next_by (at (plus (view member.now)) o k (bits_of bits.now)) (option_copied name.entry) }
{
    match next_at(member, o, k, bits, name) {
        Some(number) => Some(number),
        None => {
            if finished_at(member, o, k, bits) {
                first_by(member, name)
            } else {
                None
            }
        }
    }
}

#[cycle(next_at)]
fn order_next(members: &[Term], o: usize, k: u32, bits: &[bool], name: Option<&Name>) -> Option<u32>
    requires { o + rooms (terms_of members.now) < 2 ^ 64 }
    ensures { result ≡ next_by (at_order (terms_of members.now) o k (bits_of bits.now)) (option_copied name.entry) }
{
    let mut at = o;
    for i in 0..members.len() {
        if has(&members[i], k) {
            if let Some(number) = next_at(&members[i], at, k, bits, name) {
                return Some(number);
            }
            if finished_at(&members[i], at, k, bits) {
                return first_in_order(&members[i + 1..], name);
            }
            return None;
        }
        at += room(&members[i]);
    }
    None
}

#[cycle(next_at)]
fn some_next(members: &[Term], o: usize, k: u32, bits: &[bool], name: Option<&Name>) -> Option<u32>
    requires { o + rooms (terms_of members.now) < 2 ^ 64 }
    ensures { result ≡ next_by (at_some (terms_of members.now) o k (bits_of bits.now)) (option_copied name.entry) }
{
    let mut at = o;
    for i in 0..members.len() {
        if has(&members[i], k) {
            return next_at(&members[i], at, k, bits, name);
        }
        at += room(&members[i]);
    }
    None
}

#[cycle(next_at)]
fn member_next(
    members: &[Term],
    o: usize,
    k: u32,
    bits: &[bool],
    name: Option<&Name>,
) -> Option<u32>
    requires { o + and_rooms (terms_of members.now) < 2 ^ 64 }
    ensures { result ≡ next_by (at_member (terms_of members.now) o k (bits_of bits.now)) (option_copied name.entry) }
{
    let mut at = o;
    for i in 0..members.len() {
        if has(&members[i], k) {
            return next_at(&members[i], at + 1, k, bits, name);
        }
        at += 1 + room(&members[i]);
    }
    None
}

fn left_next(members: &[Term], o: usize, k: u32, bits: &[bool], name: Option<&Name>) -> Option<u32>
    requires { o + and_rooms (terms_of members.now) < 2 ^ 64 }
    ensures { result ≡ next_of_some (left_at (terms_of members.now) o k (bits_of bits.now)) (option_copied name.entry) }
{
    let mut at = o;
    for i in 0..members.len() {
        if !has(&members[i], k) && !bit(bits, at) {
            if let Some(number) = first_by(&members[i], name) {
                return Some(number);
            }
        }
        at += 1 + room(&members[i]);
    }
    None
}
