ghost use Rattle.std.specs.Prelude.{◌≡◌, ◌++◌, map, IfOk, OnOk};
ghost use Rattle.sgml_model.specs.View.{view};

use crate::term::Term;
use sgml_text::Memory;
use std::alloc::Global;

impl Term {
    #[cycle(copy)]
    pub fn copy(&self, alloc: Global) -> Result<Term, Memory>
        ensures { IfOk result (λ new. view new ≡ view self.now) }
    {
        match self {
            Term::Empty => Ok(Term::Empty),
            Term::Name(number, name) => Ok(Term::Name(*number, name.copy(alloc)?)),
            Term::Pcdata(number) => Ok(Term::Pcdata(*number)),
            Term::Seq(members) => Ok(Term::Seq(copy_all(alloc, members)?)),
            Term::Or(members) => Ok(Term::Or(copy_all(alloc, members)?)),
            Term::And(members) => Ok(Term::And(copy_all(alloc, members)?)),
            Term::Opt(member) => Ok(Term::Opt(Box::new(alloc, member.copy(alloc)?)?)),
            Term::Plus(member) => Ok(Term::Plus(Box::new(alloc, member.copy(alloc)?)?)),
            Term::Rep(member) => Ok(Term::Rep(Box::new(alloc, member.copy(alloc)?)?)),
            Term::Member(begun, left) => Ok(Term::Member(
                Box::new(alloc, begun.copy(alloc)?)?,
                copy_all(alloc, left)?,
            )),
            Term::Round(begun, member) => Ok(Term::Round(
                Box::new(alloc, begun.copy(alloc)?)?,
                Box::new(alloc, member.copy(alloc)?)?,
            )),
        }
    }
}

#[cycle(copy)]
pub fn copy_all(alloc: Global, members: &[Term]) -> Result<Vec<Term>, Memory>
    ensures { IfOk result (λ new. map view new.items ≡ map view members.now) }
{
    let mut all = Vec::new(alloc);
    for i in 0..members.len() {
        all.push(members[i].copy(alloc)?)?;
    }
    Ok(all)
}

// Copies of the members at the end.
pub fn push_all(all: &mut Vec<Term>, alloc: Global, members: &[Term]) -> Result<(), Memory>
    ensures { OnOk result (map view all.new.items ≡ map view all.old.items ++ map view members.now) }
{
    for member in members {
        all.push(member.copy(alloc)?)?;
    }
    Ok(())
}
