// Whether two places of one model stand for one term.
ghost use Rattle.std.specs.Prelude.{◌≡◌, ◌+◌, ◌^◌, ◌<◌, true, IfSome, option_map};
ghost use Rattle.sgml_model.specs.View.{view};
ghost use Rattle.sgml_automaton.specs.Members.{terms_of};
ghost use Rattle.sgml_automaton.specs.Position.{room, rooms, and_rooms, Bits, bits_of, left_at};
ghost use Rattle.sgml_automaton.specs.Alike.{no_terms, shape, shape_order, shape_some, shape_last, shape_member, bare, bare_some, same_bool, same_left, shared, equal_shapes, within, core_shape, alike, alike_order, alike_some, alike_member, unmoved, unmoved_first};
ghost use Rattle.sgml_automaton.specs.Cores.{core_view, IsCore};
ghost use Rattle.sgml_automaton.specs.Grouped.{own_bits, must_be_last, group_rooms, group_shape};

use crate::place::{bit, has, room};
use sgml_model::Term;

fn same_bool(a: bool, b: bool) -> bool
    ensures { result ≡ same_bool a b }
{
    if a { b } else { !b }
}

// No member is left.
fn none_left(members: &[Term], o: usize, k: u32, bits: &[bool]) -> bool
    requires { o + and_rooms (terms_of members.now) < 2 ^ 64 }
    ensures { result ≡ no_terms (left_at (terms_of members.now) o k (bits_of bits.now)) }
{
    let mut at = o;
    for i in 0..members.len() {
        if !has(&members[i], k) && !bit(bits, at) {
            return false;
        }
        at += 1 + room(&members[i]);
    }
    true
}

// The same members are left.
fn same_left(members: &[Term], o: usize, k: u32, bits: &[bool], j: u32, others: &[bool]) -> bool
    requires { o + and_rooms (terms_of members.now) < 2 ^ 64 }
    ensures { result ≡ same_left (terms_of members.now) o k (bits_of bits.now) j (bits_of others.now) }
{
    let mut at = o;
    for i in 0..members.len() {
        let here = has(&members[i], k) || bit(bits, at);
        let there = has(&members[i], j) || bit(others, at);
        if !same_bool(here, there) {
            return false;
        }
        at += 1 + room(&members[i]);
    }
    true
}

// One member has both tokens.
fn shared(members: &[Term], k: u32, j: u32) -> bool
    ensures { result ≡ shared (terms_of members.now) k j }
{
    for i in 0..members.len() {
        if has(&members[i], k) && has(&members[i], j) {
            return true;
        }
    }
    false
}

// A place in a model: the part of it round the last token, and where its bits begin.
#[derive(Clone, Copy)]
pub struct Core<'a> {
    pub term: &'a Term,
    pub at: usize,
}

// The part within the outermost layer of a term without tokens, where that is a sequence, or a
// begun member.
#[cycle(peel)]
fn peel<'a>(term: &'a Term, o: usize, k: u32, bits: &[bool], sequence: bool) -> Option<Core<'a>>
    requires { o + room (view term.now) < 2 ^ 64 }
    ensures core { IfSome result IsCore }
    ensures shape { core_shape (option_map core_view result) k (bits_of bits.now)
        ≡ within sequence (shape (view term.now) o k (bits_of bits.now)) }
{
    match term {
        Term::Empty => None,
        Term::Name(_, _) => None,
        Term::Pcdata(_) => None,
        Term::Seq(members) => {
            if sequence {
                last_begun(members, o, k)
            } else {
                None
            }
        }
        Term::Or(members) => peel_some(members, o, k, bits, sequence),
        Term::And(members) => {
            if !sequence && none_left(members, o, k, bits) {
                member_begun(members, o, k)
            } else {
                None
            }
        }
        Term::Opt(member) => peel(member, o, k, bits, sequence),
        Term::Plus(_) => None,
        Term::Rep(_) => None,
        Term::Member(_, _) => None,
        Term::Round(_, _) => None,
    }
}

#[cycle(peel)]
fn peel_some<'a>(
    members: &'a [Term],
    o: usize,
    k: u32,
    bits: &[bool],
    sequence: bool,
) -> Option<Core<'a>>
    requires { o + rooms (terms_of members.now) < 2 ^ 64 }
    ensures core { IfSome result IsCore }
    ensures shape { core_shape (option_map core_view result) k (bits_of bits.now)
        ≡ within sequence (shape_some (terms_of members.now) o k (bits_of bits.now)) }
{
    let mut at = o;
    for i in 0..members.len() {
        if has(&members[i], k) {
            return peel(&members[i], at, k, bits, sequence);
        }
        at += room(&members[i]);
    }
    None
}

// The member of a sequence round the token, where it is the last.
fn last_begun<'a>(members: &'a [Term], o: usize, k: u32) -> Option<Core<'a>>
    requires { o + rooms (terms_of members.now) < 2 ^ 64 }
    ensures core { IfSome result IsCore }
    ensures shape { (b : Bits) → core_shape (option_map core_view result) k b
        ≡ shape_last (terms_of members.now) o k b }
{
    let mut at = o;
    for i in 0..members.len() {
        if has(&members[i], k) {
            if i + 1 < members.len() {
                return None;
            }
            return Some(Core {
                term: &members[i],
                at,
            });
        }
        at += room(&members[i]);
    }
    None
}

// The member of an AND group round the token.
fn member_begun<'a>(members: &'a [Term], o: usize, k: u32) -> Option<Core<'a>>
    requires { o + and_rooms (terms_of members.now) < 2 ^ 64 }
    ensures core { IfSome result IsCore }
    ensures shape { (b : Bits) → core_shape (option_map core_view result) k b
        ≡ shape_member (terms_of members.now) o k b }
{
    let mut at = o;
    for i in 0..members.len() {
        if has(&members[i], k) {
            return Some(Core {
                term: &members[i],
                at: at + 1,
            });
        }
        at += 1 + room(&members[i]);
    }
    None
}

// A name is all that there was.
#[cycle(bare)]
fn bare(term: &Term, k: u32) -> bool
    ensures { result ≡ bare (view term.now) k }
{
    match term {
        Term::Empty => false,
        Term::Name(_, _) => true,
        Term::Pcdata(_) => false,
        Term::Seq(_) => false,
        Term::Or(members) => bare_some(members, k),
        Term::And(_) => false,
        Term::Opt(member) => bare(member, k),
        Term::Plus(_) => false,
        Term::Rep(_) => false,
        Term::Member(_, _) => false,
        Term::Round(_, _) => false,
    }
}

#[cycle(bare)]
fn bare_some(members: &[Term], k: u32) -> bool
    ensures { result ≡ bare_some (terms_of members.now) k }
{
    for i in 0..members.len() {
        if has(&members[i], k) {
            return bare(&members[i], k);
        }
    }
    false
}

// A group in which the member round a token is looked for: a sequence, of which it must be the last, an
// OR group, or an AND group.
#[derive(Clone, Copy)]
enum Grouping {
    Sequence,
    Choice,
    And,
}

// How many bits stand before each member's own.
fn own_bits(grouping: Grouping) -> usize
    ensures { result ≡ own_bits grouping }
{
    match grouping {
        Grouping::Sequence => 0,
        Grouping::Choice => 0,
        Grouping::And => 1,
    }
}

fn must_be_last(grouping: Grouping) -> bool
    ensures { result ≡ must_be_last grouping }
{
    match grouping {
        Grouping::Sequence => true,
        Grouping::Choice => false,
        Grouping::And => false,
    }
}

// Two places without tokens stand for one term.
#[cycle(equal)]
fn equal(
    term: &Term,
    o: usize,
    k: u32,
    bits: &[bool],
    other: &Term,
    p: usize,
    j: u32,
    others: &[bool],
) -> bool
    requires first { o + room (view term.now) < 2 ^ 64 }
    requires second { p + room (view other.now) < 2 ^ 64 }
    ensures { result ≡ equal_shapes (shape (view term.now) o k (bits_of bits.now))
        (shape (view other.now) p j (bits_of others.now)) }
{
    match term {
        Term::Empty => false,
        Term::Name(_, _) => bare(other, j),
        Term::Pcdata(_) => false,
        Term::Seq(members) => match peel(other, p, j, others, true) {
            None => false,
            Some(core) => equal_among(
                members,
                Grouping::Sequence,
                o,
                k,
                bits,
                core.term,
                core.at,
                j,
                others,
            ),
        },
        Term::Or(members) => equal_among(
            members,
            Grouping::Choice,
            o,
            k,
            bits,
            other,
            p,
            j,
            others,
        ),
        Term::And(members) => {
            if !none_left(members, o, k, bits) {
                return false;
            }
            match peel(other, p, j, others, false) {
                None => false,
                Some(core) => equal_among(
                    members,
                    Grouping::And,
                    o,
                    k,
                    bits,
                    core.term,
                    core.at,
                    j,
                    others,
                ),
            }
        }
        Term::Opt(member) => equal(member, o, k, bits, other, p, j, others),
        Term::Plus(_) => false,
        Term::Rep(_) => false,
        Term::Member(_, _) => false,
        Term::Round(_, _) => false,
    }
}

// The member round the token, against the other place.
#[cycle(equal)]
fn equal_among(
    members: &[Term],
    grouping: Grouping,
    o: usize,
    k: u32,
    bits: &[bool],
    other: &Term,
    p: usize,
    j: u32,
    others: &[bool],
) -> bool
    requires first { o + group_rooms grouping (terms_of members.now) < 2 ^ 64 }
    requires second { p + room (view other.now) < 2 ^ 64 }
    ensures { result ≡ equal_shapes (group_shape grouping (terms_of members.now) o k (bits_of bits.now))
        (shape (view other.now) p j (bits_of others.now)) }
{
    let own = own_bits(grouping);
    let last = must_be_last(grouping);
    let mut at = o;
    for i in 0..members.len() {
        if has(&members[i], k) {
            if last && i + 1 < members.len() {
                return false;
            }
            return equal(&members[i], own + at, k, bits, other, p, j, others);
        }
        at = own + (at + room(&members[i]));
    }
    false
}

/// Two last tokens, each with its bits, stand for one term.
#[cycle(alike)]
pub fn alike(term: &Term, o: usize, k: u32, bits: &[bool], j: u32, others: &[bool]) -> bool
    requires { o + room (view term.now) < 2 ^ 64 }
    ensures { result ≡ alike (view term.now) o k (bits_of bits.now) j (bits_of others.now) }
{
    match term {
        Term::Empty => true,
        Term::Name(_, _) => true,
        Term::Pcdata(_) => true,
        Term::Seq(members) => alike_order(members, o, k, bits, j, others),
        Term::Or(members) => {
            if shared(members, k, j) {
                alike_some(members, o, k, bits, j, others)
            } else {
                equal_among(members, Grouping::Choice, o, k, bits, term, o, j, others)
            }
        }
        Term::And(members) => {
            if !same_left(members, o, k, bits, j, others) {
                return false;
            }
            if shared(members, k, j) {
                return alike_member(members, o, k, bits, j, others);
            }
            match member_begun(members, o, j) {
                None => false,
                Some(core) => equal_among(
                    members,
                    Grouping::And,
                    o,
                    k,
                    bits,
                    core.term,
                    core.at,
                    j,
                    others,
                ),
            }
        }
        Term::Opt(member) => alike(member, o, k, bits, j, others),
        Term::Plus(member) => alike(member, o, k, bits, j, others),
        Term::Rep(member) => alike(member, o, k, bits, j, others),
        Term::Member(_, _) => true,
        Term::Round(_, _) => true,
    }
}

#[cycle(alike)]
fn alike_order(members: &[Term], o: usize, k: u32, bits: &[bool], j: u32, others: &[bool]) -> bool
    requires { o + rooms (terms_of members.now) < 2 ^ 64 }
    ensures { result ≡ alike_order (terms_of members.now) o k (bits_of bits.now) j (bits_of others.now) }
{
    let mut at = o;
    for i in 0..members.len() {
        if has(&members[i], k) {
            return has(&members[i], j) && alike(&members[i], at, k, bits, j, others);
        }
        if has(&members[i], j) {
            return false;
        }
        at += room(&members[i]);
    }
    true
}

#[cycle(alike)]
fn alike_some(members: &[Term], o: usize, k: u32, bits: &[bool], j: u32, others: &[bool]) -> bool
    requires { o + rooms (terms_of members.now) < 2 ^ 64 }
    ensures { result ≡ alike_some (terms_of members.now) o k (bits_of bits.now) j (bits_of others.now) }
{
    let mut at = o;
    for i in 0..members.len() {
        if has(&members[i], k) {
            return alike(&members[i], at, k, bits, j, others);
        }
        at += room(&members[i]);
    }
    true
}

#[cycle(alike)]
fn alike_member(members: &[Term], o: usize, k: u32, bits: &[bool], j: u32, others: &[bool]) -> bool
    requires { o + and_rooms (terms_of members.now) < 2 ^ 64 }
    ensures { result ≡ alike_member (terms_of members.now) o k (bits_of bits.now) j (bits_of others.now) }
{
    let mut at = o;
    for i in 0..members.len() {
        if has(&members[i], k) {
            return alike(&members[i], at + 1, k, bits, j, others);
        }
        at += 1 + room(&members[i]);
    }
    true
}

/// The token leaves the whole model.
#[cycle(unmoved)]
pub fn unmoved(term: &Term, k: u32) -> bool
    ensures { result ≡ unmoved (view term.now) k }
{
    match term {
        Term::Empty => false,
        Term::Name(_, _) => false,
        Term::Pcdata(_) => true,
        Term::Seq(members) => unmoved_first(members, k),
        Term::Or(_) => false,
        Term::And(_) => false,
        Term::Opt(_) => false,
        Term::Plus(_) => false,
        Term::Rep(_) => false,
        Term::Member(_, _) => false,
        Term::Round(_, _) => false,
    }
}

#[cycle(unmoved)]
fn unmoved_first(members: &[Term], k: u32) -> bool
    ensures { result ≡ unmoved_first (terms_of members.now) k }
{
    match members {
        [] => false,
        [first, ..] => has(first, k) && unmoved(first, k),
    }
}
