// The files in which texts are.
ghost use Rattle.std.specs.Prelude.{◌≡◌, IfOk, IsSome, None, Some};
ghost use Rattle.sgml_theory_standing.specs.theory_reading.Types.{entity};
ghost use Rattle.sgml_theory_standing.specs.theory_reading.Unread.{kind_of, file_of, file_of_body, file_of_entity, file_of_subset};
ghost use Rattle.sgml_declared.specs.Files.{file_name, placed_by, sources_in, base_at, InEach};

use crate::options::Options;
use crate::placing::placed;
use crate::subset::ExternalSubset;
use sgml_catalog::{Kind, Resolved};
use sgml_dtd::Dtd;
use sgml_entity::{Body, Entity, External, InputStack, Space};
use sgml_text::{Memory, Name, Text};
use std::alloc::Global;

impl Options {
    /// The store's name of the file of what is declared with an external identifier (TR9401).
    pub fn file_name(
        &self,
        alloc: Global,
        kind: Kind,
        name: &Name,
        external: &External,
        base: &Text,
    ) -> Result<Option<Text>, Memory>
        ensures { IfOk result (λ file. file ≡ file_name self.now kind name.now external.now base.now) }
    {
        match self.catalog.resolve(alloc, external, kind, name)? {
            Some(resolved) => Ok(Some(self.placed_by(alloc, base, resolved)?)),
            None => Ok(None),
        }
    }

    /// The name of the file of the entity of a number, where its text is in one: number 0 is the
    /// document, 1 the external subset.
    pub fn file_of(
        &self,
        alloc: Global,
        dtd: &Dtd,
        subset: &Option<ExternalSubset>,
        number: u32,
    ) -> Result<Option<Text>, Memory>
        requires { IsSome subset.now → IsSome dtd.now.name }
        ensures { IfOk result (InEach self.now (λ outside. file_of outside (sources_in dtd.now subset.now) number)) }
    {
        match number {
            0 => Ok(Some(self.base.copy(alloc)?)),
            1 => self.file_of_subset(alloc, dtd, subset),
            _ => self.file_of_entity(alloc, dtd, number),
        }
    }

    /// The name of the file in which a declaration stands that is read at the top of the stack: that of
    /// the innermost text that has one.
    pub fn base_at(
        &self,
        alloc: Global,
        dtd: &Dtd,
        subset: &Option<ExternalSubset>,
        stack: &InputStack,
    ) -> Result<Text, Memory>
        requires { IsSome subset.now → IsSome dtd.now.name }
        ensures { IfOk result (InEach self.now (λ outside. base_at outside (sources_in dtd.now subset.now) stack.now)) }
    {
        for level in 0..stack.height() {
            if let Some(place) = stack.place(level) {
                if let Some(file) = self.file_of(alloc, dtd, subset, place.entity)? {
                    return Ok(file);
                }
            }
        }
        Ok(self.base.copy(alloc)?)
    }

    fn placed_by(&self, alloc: Global, base: &Text, resolved: Resolved) -> Result<Text, Memory>
        ensures { IfOk result (λ name. name ≡ placed_by self.now base.now resolved) }
    {
        if resolved.from_catalog {
            placed(alloc, &self.catalog_base, resolved.text)
        } else {
            placed(alloc, base, resolved.text)
        }
    }

    fn file_of_subset(
        &self,
        alloc: Global,
        dtd: &Dtd,
        subset: &Option<ExternalSubset>,
    ) -> Result<Option<Text>, Memory>
        requires { IsSome subset.now → IsSome dtd.now.name }
        ensures { IfOk result (InEach self.now (λ outside. file_of_subset outside dtd.now subset.now)) }
    {
        match subset {
            Some(subset) => self.file_name(
                alloc,
                Kind::Doctype,
                dtd.doctype(),
                subset.external(),
                subset.base(),
            ),
            None => Ok(None),
        }
    }

    fn file_of_entity(&self, alloc: Global, dtd: &Dtd, number: u32) -> Result<Option<Text>, Memory>
        ensures { IfOk result (InEach self.now (λ outside. file_of_entity outside (entity dtd.now number))) }
    {
        match dtd.entities().get(number) {
            Some(entity) => self.file_of_body(alloc, entity),
            None => Ok(None),
        }
    }

    fn file_of_body(&self, alloc: Global, entity: &Entity) -> Result<Option<Text>, Memory>
        ensures { IfOk result (InEach self.now (λ outside. file_of_body outside entity.now entity.now.body)) }
    {
        match &entity.body {
            Body::External(external) => self.file_name(
                alloc,
                kind_of(entity.space),
                &entity.name,
                external,
                &entity.base,
            ),
            _ => Ok(None),
        }
    }
}

/// The kind of a catalog's entries for entities of this space.
pub(crate) fn kind_of(space: Space) -> Kind
    ensures { result ≡ kind_of space }
{
    match space {
        Space::General => Kind::General,
        Space::Parameter => Kind::Parameter,
    }
}
