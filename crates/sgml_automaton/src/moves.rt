ghost use Rattle.std.specs.Prelude.{◌≡◌, ◌+◌, ◌≤◌, length};
ghost use Rattle.std.specs.Option.{option_copied};
ghost use Rattle.sgml_model.specs.Term.{plus};
ghost use Rattle.sgml_model.specs.View.{view};
ghost use Rattle.sgml_automaton.specs.Members.{terms_of};
ghost use Rattle.sgml_automaton.specs.Position.{room, rooms, and_rooms, same_member};
ghost use Rattle.sgml_automaton.specs.Moves.{clear_l, mark_l, enter_l, enter_in_l, inside_l, go_l, go_order_l, go_some_l, go_member_l};

use crate::nexts::next_at;
use crate::place::{has, room};
use sgml_model::Term;
use sgml_text::Name;

fn clear(members: &[Term], o: usize, bits: &mut [bool])
    requires { o + and_rooms (terms_of members.now) ≤ length bits.old }
    ensures { bits.new ≡ clear_l (terms_of members.now) o bits.old }
{
    let mut at = o;
    for i in 0..members.len() {
        let within = room(&members[i]);
        bits[at] = false;
        at += 1 + within;
    }
}

fn mark(members: &[Term], o: usize, k: u32, bits: &mut [bool])
    requires { o + and_rooms (terms_of members.now) ≤ length bits.old }
    ensures { bits.new ≡ mark_l (terms_of members.now) o k bits.old }
{
    let mut at = o;
    for i in 0..members.len() {
        if has(&members[i], k) {
            bits[at] = true;
            return;
        }
        at += 1 + room(&members[i]);
    }
}

fn same_member(members: &[Term], k: u32, j: u32) -> bool
    ensures { result ≡ same_member (terms_of members.now) k j }
{
    for i in 0..members.len() {
        if has(&members[i], k) {
            return has(&members[i], j);
        }
    }
    false
}

/// A model is begun with the token k.
#[cycle(enter)]
pub fn enter(term: &Term, o: usize, k: u32, bits: &mut [bool])
    requires { o + room (view term.now) ≤ length bits.old }
    ensures { bits.new ≡ enter_l (view term.now) o k bits.old }
{
    match term {
        Term::Empty => {}
        Term::Name(_, _) => {}
        Term::Pcdata(_) => {}
        Term::Seq(members) => enter_in(members, o, k, bits),
        Term::Or(members) => enter_in(members, o, k, bits),
        Term::And(members) => {
            clear(members, o, bits);
            inside(members, o, k, bits);
        }
        Term::Opt(member) => enter(member, o, k, bits),
        Term::Plus(member) => enter(member, o, k, bits),
        Term::Rep(member) => enter(member, o, k, bits),
        Term::Member(_, _) => {}
        Term::Round(_, _) => {}
    }
}

#[cycle(enter)]
fn enter_in(members: &[Term], o: usize, k: u32, bits: &mut [bool])
    requires { o + rooms (terms_of members.now) ≤ length bits.old }
    ensures { bits.new ≡ enter_in_l (terms_of members.now) o k bits.old }
{
    let mut at = o;
    for i in 0..members.len() {
        if has(&members[i], k) {
            enter(&members[i], at, k, bits);
            return;
        }
        at += room(&members[i]);
    }
}

#[cycle(enter)]
fn inside(members: &[Term], o: usize, k: u32, bits: &mut [bool])
    requires { o + and_rooms (terms_of members.now) ≤ length bits.old }
    ensures { bits.new ≡ inside_l (terms_of members.now) o k bits.old }
{
    let mut at = o;
    for i in 0..members.len() {
        if has(&members[i], k) {
            enter(&members[i], at + 1, k, bits);
            return;
        }
        at += 1 + room(&members[i]);
    }
}

/// The token j of the name comes after the token k.
#[cycle(go)]
pub fn go(term: &Term, o: usize, k: u32, j: u32, name: Option<&Name>, bits: &mut [bool])
    requires { o + room (view term.now) ≤ length bits.old }
    ensures { bits.new ≡ go_l (view term.now) o k j (option_copied name.entry) bits.old }
{
    match term {
        Term::Empty => {}
        Term::Name(_, _) => {}
        Term::Pcdata(_) => {}
        Term::Seq(members) => go_order(members, o, k, j, name, bits),
        Term::Or(members) => go_some(members, o, k, j, name, bits),
        Term::And(members) => {
            if same_member(members, k, j) {
                go_member(members, o, k, j, name, bits);
            } else {
                mark(members, o, k, bits);
                inside(members, o, j, bits);
            }
        }
        Term::Opt(member) => go(member, o, k, j, name, bits),
        Term::Plus(member) => go_round(member, o, k, j, name, bits),
        Term::Rep(member) => go_round(member, o, k, j, name, bits),
        Term::Member(_, _) => {}
        Term::Round(_, _) => {}
    }
}

#[cycle(go)]
fn go_round(member: &Term, o: usize, k: u32, j: u32, name: Option<&Name>, bits: &mut [bool])
    requires { o + room (view member.now) ≤ length bits.old }
    ensures { bits.new ≡ go_l (plus (view member.now)) o k j (option_copied name.entry) bits.old }
{
    if next_at(member, o, k, bits, name).is_some() {
        go(member, o, k, j, name, bits);
    } else {
        enter(member, o, j, bits);
    }
}

#[cycle(go)]
fn go_order(members: &[Term], o: usize, k: u32, j: u32, name: Option<&Name>, bits: &mut [bool])
    requires { o + rooms (terms_of members.now) ≤ length bits.old }
    ensures { bits.new ≡ go_order_l (terms_of members.now) o k j (option_copied name.entry) bits.old }
{
    let mut at = o;
    for i in 0..members.len() {
        if has(&members[i], k) {
            if has(&members[i], j) {
                go(&members[i], at, k, j, name, bits);
            } else {
                at += room(&members[i]);
                enter_in(&members[i + 1..], at, j, bits);
            }
            return;
        }
        at += room(&members[i]);
    }
}

#[cycle(go)]
fn go_some(members: &[Term], o: usize, k: u32, j: u32, name: Option<&Name>, bits: &mut [bool])
    requires { o + rooms (terms_of members.now) ≤ length bits.old }
    ensures { bits.new ≡ go_some_l (terms_of members.now) o k j (option_copied name.entry) bits.old }
{
    let mut at = o;
    for i in 0..members.len() {
        if has(&members[i], k) {
            go(&members[i], at, k, j, name, bits);
            return;
        }
        at += room(&members[i]);
    }
}

#[cycle(go)]
fn go_member(members: &[Term], o: usize, k: u32, j: u32, name: Option<&Name>, bits: &mut [bool])
    requires { o + and_rooms (terms_of members.now) ≤ length bits.old }
    ensures { bits.new ≡ go_member_l (terms_of members.now) o k j (option_copied name.entry) bits.old }
{
    let mut at = o;
    for i in 0..members.len() {
        if has(&members[i], k) {
            go(&members[i], at + 1, k, j, name, bits);
            return;
        }
        at += 1 + room(&members[i]);
    }
}
