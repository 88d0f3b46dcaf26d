// The table of element types.
ghost use Rattle.std.specs.Prelude.{◌≡◌, ◌+◌, ◌<◌, ◌∷◌, ◌++◌, [], None, Some, IfOk, IfErr, OnOk, OnErr, IsSomeAnd, length, map, slice_get, option_map};
ghost use Rattle.sgml_names.specs.Index.{table_limit};
ghost use Rattle.sgml_names.specs.Naming.{cased};
ghost use Rattle.sgml_dtd_elements.specs.Types.{types, number_of, IsContentOf};
ghost use Rattle.sgml_dtd_elements.specs.Folded.{folded};
ghost use Rattle.sgml_dtd_elements.specs.Laws.{AreDistinct};
ghost use Rattle.sgml_dtd_elements.specs.Rows.{first_reason, IsUnambiguousContent};
ghost use Rattle.sgml_dtd_elements.specs.Errors.{IsRefusedFirst};

use crate::adding::add_declaration;
use crate::content::{Content, Exceptions};
use crate::row::{Place, Row, prepare_row};
use sgml_decl_forms::{ElementDeclaration, Omits};
use sgml_names::NameIndex;
use sgml_syntax::Syntax;
use sgml_text::{Memory, Name, RefusalError};
use std::alloc::Global;
use std::marker::Model;

/// The element types, numbered from 0 in order of declaration, those of one group in the group's
/// order. Names are as the syntax has them.
#[derive(Drop)]
pub struct Elements {
    alloc: Global,
    rows: Vec<Row>,
    places: Vec<Place>,
    index: NameIndex,
}

impl Model for Elements {
    ghost use Rattle.std.specs.Prelude.{List, map};
    ghost use Rattle.sgml_decl_forms.specs.declared.element.ElementDeclaration.{ElementDeclaration};
    ghost use Rattle.sgml_dtd_elements.specs.Kept.{declared, AreKept};

    ghost Value = { List ElementDeclaration };

    ghost view = { λ a. map declared a.rows.items };

    ghost invariant = { λ a. AreKept a.rows.items a.places.items a.index };
}

impl Elements {
    ghost use Rattle.sgml_dtd_elements.specs.Kept.{declared, IsRead};

    /// No element type.
    pub fn new(alloc: Global) -> Self
        ensures { result ≡ [] }
    {
        Elements {
            alloc,
            rows: Vec::new(alloc),
            places: Vec::new(alloc),
            index: NameIndex::new(alloc),
        }
    }

    /// Adds what a declaration says. Its elements' names, its model and its exceptions are folded as
    /// the syntax folds general names.
    pub fn add(
        &mut self,
        syntax: &Syntax,
        declaration: &ElementDeclaration,
    ) -> Result<(), RefusalError>
        ensures none { OnOk result (first_reason syntax.now self.old declaration.now ≡ None) }
        ensures unambiguous { OnOk result (IsUnambiguousContent (folded syntax.now declaration.now).body.content) }
        ensures ok { OnOk result (self.new ≡ self.old ++ folded syntax.now declaration.now ∷ []) }
        ensures refused { IfErr result (IsRefusedFirst syntax.now self.old declaration.now) }
        ensures err { OnErr result (self.new ≡ self.old) }
    {
        add_declaration(
            self.alloc,
            syntax,
            &mut self.rows,
            &mut self.places,
            &mut self.index,
            declaration,
        )
    }

    /// The number of an element type.
    pub fn number(&self, name: &Name) -> Option<u32>
        ensures { result ≡ number_of self.now name.now }
    {
        self.index.number(name.items())
    }

    /// The number of the element type of the name that is spelled so, in upper case where names are folded
    /// (13.4.5).
    pub fn number_cased(&self, folded: bool, spelled: &[u8]) -> Result<Option<u32>, Memory>
        requires { 0 < length spelled.now }
        ensures { IfOk result (λ number. number ≡ number_of self.now (cased folded spelled.now)) }
    {
        self.index.number_cased(folded, spelled)
    }

    /// How many element types there are. No two have one name.
    pub fn count(&self) -> u32
        ensures count { result ≡ length (types self.now) }
        ensures few { result < table_limit }
        ensures distinct { AreDistinct self.now }
    {
        self.places.len() as u32
    }

    fn row(&self, number: u32) -> &Row
        requires { number < length (types self.now) }
        ensures omits { option_map (λ t. t.omits) (slice_get (types self.now) number) ≡ Some result.now.omits }
        ensures body { option_map (λ t. t.body) (slice_get (types self.now) number) ≡ Some (declared result.now).body }
        ensures read { IsRead result.now.content }
    {
        let place = self.places[number as usize];
        &self.rows[place.declaration as usize]
    }

    /// The name of an element type.
    pub fn name(&self, number: u32) -> &Name
        requires { number < length (types self.now) }
        ensures { option_map (λ t. t.name) (slice_get (types self.now) number) ≡ Some result.now }
    {
        let place = self.places[number as usize];
        &self.rows[place.declaration as usize].names.items()[place.at as usize]
    }

    /// What may stand in the elements of a type.
    pub fn content(&self, number: u32) -> &Content
        requires { number < length (types self.now) }
        ensures { IsSomeAnd (slice_get (types self.now) number) (λ t. IsContentOf t.body.content result.now) }
    {
        &self.row(number).content
    }

    /// Makes the tables of the model of an element type, where it has a model without tables. They
    /// change the time that its answers take, and nothing else.
    pub fn prepare(&mut self, number: u32) -> Result<(), Memory>
        ensures { self.new ≡ self.old }
    {
        match self.places.get(number as usize) {
            Some(place) => {
                let row = place.declaration as usize;
                prepare_row(self.alloc, &mut self.rows, row)
            }
            None => Ok(()),
        }
    }

    /// The exceptions of an element type (11.2.5).
    pub fn exceptions(&self, number: u32) -> &Exceptions
        requires { number < length (types self.now) }
        ensures included { option_map (λ t. t.body.included) (slice_get (types self.now) number) ≡ Some result.now.included }
        ensures excluded { option_map (λ t. t.body.excluded) (slice_get (types self.now) number) ≡ Some result.now.excluded }
    {
        &self.row(number).exceptions
    }

    /// Which tags of an element type may be left out (11.2.2).
    pub fn omits(&self, number: u32) -> Omits
        requires { number < length (types self.now) }
        ensures { option_map (λ t. t.omits) (slice_get (types self.now) number) ≡ Some result }
    {
        self.row(number).omits
    }
}
