ghost use Rattle.std.specs.Prelude.{◌≡◌, ◌+◌, ◌<◌, ◌++◌, map, take, drop, length, option_map, IfOk};
ghost use Rattle.std.specs.Option.{option_copied};
ghost use Rattle.sgml_model.specs.Choice.{is_name, is_text, left_by, left_in_order, left_of_some, choice, begun};
ghost use Rattle.sgml_model.specs.Term.{plus, member};
ghost use Rattle.sgml_model.specs.View.{view, terms};

use crate::copy::{copy_all, push_all};
use crate::term::Term;
use sgml_text::{Memory, Name};
use std::alloc::Global;

pub fn is_name(own: &Name, name: Option<&Name>) -> bool
    ensures { result ≡ is_name own.now (option_copied name.entry) }
{
    match name {
        None => false,
        Some(name) => own.items() == name.items(),
    }
}

pub fn is_text(name: Option<&Name>) -> bool
    ensures { result ≡ is_text (option_copied name.entry) }
{
    match name {
        None => true,
        Some(_) => false,
    }
}

impl Term {
    // The term left by the first token of the name that can come.
    #[cycle(take)]
    pub fn left_by(&self, alloc: Global, name: Option<&Name>) -> Result<Option<Term>, Memory>
        ensures { IfOk result (λ o. option_map view o ≡ left_by (view self.now) (option_copied name.entry)) }
    {
        match self {
            Term::Empty => Ok(None),
            Term::Name(_, own) => {
                if is_name(own, name) {
                    Ok(Some(Term::Empty))
                } else {
                    Ok(None)
                }
            }
            Term::Pcdata(number) => {
                if is_text(name) {
                    Ok(Some(Term::Pcdata(*number)))
                } else {
                    Ok(None)
                }
            }
            Term::Seq(members) => left_in_order(alloc, members, name),
            Term::Or(members) => left_of_some(alloc, members, name),
            Term::And(members) => choice(alloc, members, name),
            Term::Opt(member) => member.left_by(alloc, name),
            Term::Plus(member) => new_round(alloc, member, name),
            Term::Rep(member) => new_round(alloc, member, name),
            Term::Member(begun, left) => {
                if let Some(next) = begun.left_by(alloc, name)? {
                    return Ok(Some(Term::Member(Box::new(alloc, next)?, copy_all(alloc, left)?)));
                }
                if begun.finished() {
                    choice(alloc, left, name)
                } else {
                    Ok(None)
                }
            }
            Term::Round(begun, member) => {
                if let Some(next) = begun.left_by(alloc, name)? {
                    return Ok(Some(Term::Round(
                        Box::new(alloc, next)?,
                        Box::new(alloc, member.copy(alloc)?)?,
                    )));
                }
                if begun.finished() {
                    new_round(alloc, member, name)
                } else {
                    Ok(None)
                }
            }
        }
    }
}

#[cycle(take)]
fn new_round(alloc: Global, member: &Term, name: Option<&Name>) -> Result<Option<Term>, Memory>
    ensures { IfOk result (λ o. option_map view o
        ≡ left_by (plus (view member.now)) (option_copied name.entry)) }
{
    match member.left_by(alloc, name)? {
        None => Ok(None),
        Some(next) => Ok(Some(Term::Round(
            Box::new(alloc, next)?,
            Box::new(alloc, member.copy(alloc)?)?,
        ))),
    }
}

#[cycle(take)]
fn left_in_order(
    alloc: Global,
    members: &[Term],
    name: Option<&Name>,
) -> Result<Option<Term>, Memory>
    ensures { IfOk result (λ o. option_map view o
        ≡ left_in_order (terms (map view members.now)) (option_copied name.entry)) }
{
    for i in 0..members.len() {
        if let Some(next) = members[i].left_by(alloc, name)? {
            let mut rest = Vec::new(alloc);
            rest.push(next)?;
            push_all(&mut rest, alloc, &members[i + 1..])?;
            return Ok(Some(Term::Seq(rest)));
        }
        if !members[i].finished() {
            return Ok(None);
        }
    }
    Ok(None)
}

#[cycle(take)]
fn left_of_some(
    alloc: Global,
    members: &[Term],
    name: Option<&Name>,
) -> Result<Option<Term>, Memory>
    ensures { IfOk result (λ o. option_map view o
        ≡ left_of_some (terms (map view members.now)) (option_copied name.entry)) }
{
    for i in 0..members.len() {
        if let Some(next) = members[i].left_by(alloc, name)? {
            return Ok(Some(next));
        }
    }
    Ok(None)
}

// The begun member at a place, with the others left.
fn begun_at(alloc: Global, next: Term, members: &[Term], i: usize) -> Result<Term, Memory>
    requires { i < length members.now }
    ensures { IfOk result (λ r. view r
        ≡ member (view next) (terms (map view (take i members.now) ++ map view (drop (i + 1) members.now)))) }
{
    let mut others = Vec::new(alloc);
    push_all(&mut others, alloc, &members[..i])?;
    push_all(&mut others, alloc, &members[i + 1..])?;
    Ok(Term::Member(Box::new(alloc, next)?, others))
}

// Begins a member, with the others left.
#[cycle(take)]
fn choice(alloc: Global, members: &[Term], name: Option<&Name>) -> Result<Option<Term>, Memory>
    ensures { IfOk result (λ o. option_map view o
        ≡ option_map begun (choice (terms (map view members.now)) (option_copied name.entry))) }
{
    for i in 0..members.len() {
        if let Some(next) = members[i].left_by(alloc, name)? {
            return Ok(Some(begun_at(alloc, next, members, i)?));
        }
    }
    Ok(None)
}
