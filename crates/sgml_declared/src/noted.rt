// The file that was asked of the catalog last.
ghost use Rattle.std.specs.Prelude.{◌≡◌, ◌<◌, IfOk, IfSome, IsSome, IsTrue, true};
ghost use Rattle.sgml_theory_standing.specs.theory_reading.Types.{entity};
ghost use Rattle.sgml_theory_standing.specs.theory_reading.Unread.{file_of, file_of_body, file_of_entity, file_of_subset};
ghost use Rattle.sgml_declared.specs.Files.{file_name, sources_in, base_at, InEach, IsFileNoted, IsNotedAs, AreNotedAs, IsNoted, noted_if, noted_base};

use crate::files::kind_of;
use crate::options::Options;
use crate::subset::ExternalSubset;
use sgml_catalog::Kind;
use sgml_dtd::Dtd;
use sgml_entity::{Body, Entity, External, InputStack};
use sgml_text::{Memory, Name, Text};
use std::alloc::Global;

/// The file in which declarations stood last, with all that it was asked by: the catalog isn't asked again
/// for the next declaration of the same text.
#[derive(Drop)]
pub struct Noted {
    pub(crate) kind: Kind,
    pub(crate) name: Name,
    pub(crate) external: External,
    pub(crate) base: Text,
    pub(crate) file: Text,
}

impl Noted {
    /// This file, of what is declared so.
    pub(crate) fn new(
        alloc: Global,
        kind: Kind,
        name: &Name,
        external: &External,
        base: &Text,
        file: Text,
    ) -> Result<Noted, Memory>
        ensures { IfOk result (IsFileNoted kind name.now external.now base.now file) }
    {
        Ok(Noted {
            kind,
            name: name.copy(alloc)?,
            external: External {
                public: copied(alloc, &external.public)?,
                system: copied(alloc, &external.system)?,
            },
            base: base.copy(alloc)?,
            file,
        })
    }

    /// Whether it was asked for what is declared so.
    pub(crate) fn is_for(&self, kind: Kind, name: &Name, external: &External, base: &Text) -> bool
        ensures { result ≡ true → IsNotedAs kind name.now external.now base.now self.now }
    {
        self.kind == kind
            && &self.name == name
            && is_same(&self.external, external)
            && &self.base == base
    }
}

impl Options {
    /// Notes the file in which a declaration stands that is read at the top of the stack, as `base_at` tells
    /// it. Where it is the document's, that is told in place of noting it: the answer is false.
    pub(crate) fn note_base(
        &self,
        alloc: Global,
        dtd: &Dtd,
        subset: &Option<ExternalSubset>,
        stack: &InputStack,
        noted: &mut Option<Noted>,
    ) -> Result<bool, Memory>
        requires named { IsSome subset.now → IsSome dtd.now.name }
        requires noted { IfSome noted.old (IsNoted self.now) }
        ensures noted { IfSome noted.new (IsNoted self.now) }
        ensures base { IfOk result (λ found. InEach self.now (λ outside. base_at outside (sources_in dtd.now subset.now) stack.now) (noted_base self.now found noted.new)) }
    {
        for level in 0..stack.height() {
            if let Some(place) = stack.place(level) {
                if place.entity == 0 {
                    return Ok(false);
                }
                if self.note_text(alloc, dtd, subset, place.entity, noted)? {
                    return Ok(true);
                }
            }
        }
        Ok(false)
    }

    /// The file that `note_base` told.
    pub(crate) fn noted_base<'a>(&'a self, found: bool, noted: &'a Option<Noted>) -> &'a Text
        ensures { result.now ≡ noted_base self.now found noted.now }
    {
        match noted {
            Some(noted) => { if found { &noted.file } else { &self.base } }
            None => &self.base,
        }
    }

    /// Notes the file of the entity of a number, and tells whether its text is in one.
    fn note_text(
        &self,
        alloc: Global,
        dtd: &Dtd,
        subset: &Option<ExternalSubset>,
        number: u32,
        noted: &mut Option<Noted>,
    ) -> Result<bool, Memory>
        requires named { IsSome subset.now → IsSome dtd.now.name }
        requires other { 0 < number }
        requires noted { IfSome noted.old (IsNoted self.now) }
        ensures noted { IfSome noted.new (IsNoted self.now) }
        ensures found { IfOk result (λ found. InEach self.now (λ outside. file_of outside (sources_in dtd.now subset.now) number) (noted_if found noted.new)) }
        ensures some { IfOk result (λ found. IsTrue found → IsSome noted.new) }
    {
        match number {
            1 => self.note_subset(alloc, dtd, subset, noted),
            _ => self.note_entity(alloc, dtd, number, noted),
        }
    }

    fn note_subset(
        &self,
        alloc: Global,
        dtd: &Dtd,
        subset: &Option<ExternalSubset>,
        noted: &mut Option<Noted>,
    ) -> Result<bool, Memory>
        requires named { IsSome subset.now → IsSome dtd.now.name }
        requires noted { IfSome noted.old (IsNoted self.now) }
        ensures noted { IfSome noted.new (IsNoted self.now) }
        ensures found { IfOk result (λ found. InEach self.now (λ outside. file_of_subset outside dtd.now subset.now) (noted_if found noted.new)) }
        ensures some { IfOk result (λ found. IsTrue found → IsSome noted.new) }
    {
        match subset {
            Some(subset) => self.note_file(
                alloc,
                Kind::Doctype,
                dtd.doctype(),
                subset.external(),
                subset.base(),
                noted,
            ),
            None => Ok(false),
        }
    }

    fn note_entity(
        &self,
        alloc: Global,
        dtd: &Dtd,
        number: u32,
        noted: &mut Option<Noted>,
    ) -> Result<bool, Memory>
        requires noted { IfSome noted.old (IsNoted self.now) }
        ensures noted { IfSome noted.new (IsNoted self.now) }
        ensures found { IfOk result (λ found. InEach self.now (λ outside. file_of_entity outside (entity dtd.now number)) (noted_if found noted.new)) }
        ensures some { IfOk result (λ found. IsTrue found → IsSome noted.new) }
    {
        match dtd.entities().get(number) {
            Some(entity) => self.note_body(alloc, entity, noted),
            None => Ok(false),
        }
    }

    fn note_body(
        &self,
        alloc: Global,
        entity: &Entity,
        noted: &mut Option<Noted>,
    ) -> Result<bool, Memory>
        requires noted { IfSome noted.old (IsNoted self.now) }
        ensures noted { IfSome noted.new (IsNoted self.now) }
        ensures found { IfOk result (λ found. InEach self.now (λ outside. file_of_body outside entity.now entity.now.body) (noted_if found noted.new)) }
        ensures some { IfOk result (λ found. IsTrue found → IsSome noted.new) }
    {
        match &entity.body {
            Body::External(external) => self.note_file(
                alloc,
                kind_of(entity.space),
                &entity.name,
                external,
                &entity.base,
                noted,
            ),
            _ => Ok(false),
        }
    }

    // Notes the file of what is declared so, and tells whether there is one.
    fn note_file(
        &self,
        alloc: Global,
        kind: Kind,
        name: &Name,
        external: &External,
        base: &Text,
        noted: &mut Option<Noted>,
    ) -> Result<bool, Memory>
        requires noted { IfSome noted.old (IsNoted self.now) }
        ensures noted { IfSome noted.new (IsNoted self.now) }
        ensures found { IfOk result (λ found. noted_if found noted.new ≡ file_name self.now kind name.now external.now base.now) }
        ensures some { IfOk result (λ found. IsTrue found → IsSome noted.new) }
    {
        if is_noted(noted, kind, name, external, base) {
            return Ok(true);
        }
        match self.file_name(alloc, kind, name, external, base)? {
            Some(file) => {
                *noted = Some(Noted::new(alloc, kind, name, external, base, file)?);
                Ok(true)
            }
            None => Ok(false),
        }
    }
}

fn is_noted(
    noted: &Option<Noted>,
    kind: Kind,
    name: &Name,
    external: &External,
    base: &Text,
) -> bool
    ensures { result ≡ true → AreNotedAs kind name.now external.now base.now noted.now }
{
    match noted {
        Some(noted) => noted.is_for(kind, name, external, base),
        None => false,
    }
}

fn copied(alloc: Global, text: &Option<Text>) -> Result<Option<Text>, Memory>
    ensures { IfOk result (λ copy. copy ≡ text.now) }
{
    match text {
        Some(text) => Ok(Some(text.copy(alloc)?)),
        None => Ok(None),
    }
}

fn is_same(one: &External, other: &External) -> bool
    ensures { result ≡ true → one.now ≡ other.now }
{
    is_same_text(&one.public, &other.public) && is_same_text(&one.system, &other.system)
}

fn is_same_text(one: &Option<Text>, other: &Option<Text>) -> bool
    ensures { result ≡ true → one.now ≡ other.now }
{
    match (one, other) {
        (None, None) => true,
        (Some(one), Some(other)) => one == other,
        _ => false,
    }
}
