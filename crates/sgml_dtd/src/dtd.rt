// The tables of a document type.
ghost use Rattle.std.specs.Prelude.{◌≡◌, ◌<◌, [], None, Some, IfOk, IfErr, IsSome, IsSomeAnd, is_some, OnOk, OnErr, length, slice_get, option_map};
ghost use Rattle.sgml_text.specs.Refusals.{IsRefusal};
ghost use Rattle.sgml_entity.specs.sgml_names.Naming.{general_name};
ghost use Rattle.sgml_dtd_elements.specs.sgml_decl_forms.declared.declaration.Declaration.TheVariants as form;
ghost use Rattle.sgml_dtd_elements.specs.sgml_decl_forms.Declarations.{declaration_at};
ghost use Rattle.sgml_dtd_elements.specs.Errors.{IsFirstRefusal, IsRefusedFirst};
ghost use Rattle.sgml_dtd_elements.specs.Folded.{folded};
ghost use Rattle.sgml_dtd_elements.specs.Laws.{AreDistinct};
ghost use Rattle.sgml_dtd_elements.specs.Rows.{first_reason, IsUnambiguousContent};
ghost use Rattle.sgml_dtd_elements.specs.Types.{types, number_of, IsContentOf};
ghost use Rattle.sgml_dtd_attlists.specs.Interpreted.{list_in};
ghost use Rattle.sgml_dtd_attlists.specs.Rows.{reason};
ghost use Rattle.sgml_dtd_attlists.specs.Tables.{list_of};
ghost use Rattle.sgml_dtd.specs.Doctypes.{nothing, with_declared, definitions_for, map_table};
ghost use Rattle.sgml_dtd.specs.Rows.{declared_reason, head_reason, final_reason, use_reason_in, IsAmbiguousIn};
ghost use Rattle.sgml_dtd_maps.specs.Rows.{map_reason};
ghost use Rattle.sgml_dtd_maps.specs.Tables.{map_for};
ghost use Rattle.sgml_dtd.specs.Errors.{IsAfter, IsAdded, IsRefusalOf, IsEnd};

use crate::declaring::{any_lacks_notation, declare_entity, declare_notation, declared_name};
use sgml_dtd_attlists::Lists;
use sgml_dtd_attlists::attr::Definition;
use sgml_dtd_elements::decl_forms::{
    AttlistDeclaration, Declaration, DoctypeHead, ElementDeclaration, Omits, ShortrefDeclaration,
    UsemapDeclaration, read_declaration,
};
use sgml_dtd_elements::decl_lexemes::{Lexeme, Lexemes};
use sgml_dtd_elements::{Content, Elements, Exceptions};
use sgml_dtd_maps::shortref::Maps;
use sgml_dtd_maps::{MapOf, MapTables};
use sgml_entity::Entities;
use sgml_syntax::Syntax;
use sgml_text::{Memory, Name, Reason, RefusalError, Text};
use std::alloc::Global;
use std::marker::Model;

/// What the declarations of a document type say. Names are as the syntax has them.
#[derive(Drop)]
pub struct Dtd {
    alloc: Global,
    syntax: Syntax,
    name: Option<Name>,
    elements: Elements,
    lists: Lists,
    entities: Entities,
    maps: MapTables,
}

impl Model for Dtd {
    ghost use Rattle.sgml_dtd.specs.Doctypes.{Doctype};

    ghost Value = { Doctype };

    ghost view = { λ a. record { syntax = a.syntax; name = a.name; elements = a.elements; lists = a.lists; entities = a.entities.entities; notations = a.entities.notations; maps = a.maps.maps; uses = a.maps.uses } };
}

impl Dtd {
    /// A document type without declarations.
    pub fn new(alloc: Global, syntax: &Syntax) -> Result<Dtd, Memory>
        ensures { IfOk result (λ dtd. dtd ≡ nothing syntax.now) }
    {
        let syntax = syntax.copy(alloc)?;
        Ok(Dtd {
            alloc,
            syntax,
            name: None,
            elements: Elements::new(alloc),
            lists: Lists::new(alloc),
            entities: Entities::new(alloc),
            maps: MapTables::new(alloc),
        })
    }

    /// Adds what a declaration says, where `base` is the name of the file in which it stands. The
    /// head of a document type declaration is one too: it names the document type.
    pub fn add(&mut self, declaration: &Lexemes, base: &Text) -> Result<(), RefusalError>
        ensures ok { OnOk result (IsAdded base.now declaration.now self.old self.new (declaration_at declaration.now)) }
        ensures refused { IfErr result (IsRefusalOf declaration.now self.old (declaration_at declaration.now)) }
        ensures err { OnErr result (self.new ≡ self.old) }
    {
        match read_declaration(self.alloc, declaration.items()) {
            Ok(Some(said)) => self.add_declared(declaration.items(), base, said),
            Ok(None) => Err(RefusalError::Refused(Reason::DeclarationSyntax)),
            Err(_) => Err(RefusalError::Memory),
        }
    }

    fn add_declared(
        &mut self,
        lexemes: &[Lexeme],
        base: &Text,
        said: Declaration,
    ) -> Result<(), RefusalError>
        ensures ok { OnOk result (IsAfter base.now lexemes.now self.old self.new said) }
        ensures refused { IfErr result (IsFirstRefusal (declared_reason self.old lexemes.now said) (IsAmbiguousIn self.old said)) }
        ensures err { OnErr result (self.new ≡ self.old) }
    {
        match said {
            Declaration::Element(element) => self.add_element(&element),
            Declaration::Attlist(list) => self.add_list(list),
            Declaration::Entity(entity) => declare_entity(
                self.alloc,
                &self.syntax,
                &mut self.entities,
                lexemes,
                base,
                entity,
            ),
            Declaration::Notation(notation) => {
                declare_notation(
                    self.alloc,
                    &self.syntax,
                    &mut self.entities,
                    lexemes,
                    notation,
                )
            }
            Declaration::Shortref(map) => self.add_map(map),
            Declaration::Usemap(used) => self.use_map(used),
            Declaration::Doctype(head) => self.set_name(lexemes, &head),
        }
    }

    fn add_element(&mut self, element: &ElementDeclaration) -> Result<(), RefusalError>
        ensures none { OnOk result (first_reason self.old.syntax self.old.elements element.now ≡ None) }
        ensures unambiguous { OnOk result (IsUnambiguousContent (folded self.old.syntax element.now).body.content) }
        ensures ok { OnOk result (self.new ≡ with_declared [] self.old (form.Element element.now)) }
        ensures refused { IfErr result (IsRefusedFirst self.old.syntax self.old.elements element.now) }
        ensures err { OnErr result (self.new ≡ self.old) }
    {
        self.elements.add(&self.syntax, element)?;
        Ok(())
    }

    fn add_list(&mut self, list: AttlistDeclaration) -> Result<(), RefusalError>
        ensures none { OnOk result (reason self.old.syntax self.old.lists (list_in self.old.syntax list) ≡ None) }
        ensures ok { OnOk result (self.new ≡ with_declared [] self.old (form.Attlist list)) }
        ensures refused { IfErr result (IsRefusal (reason self.old.syntax self.old.lists (list_in self.old.syntax list))) }
        ensures err { OnErr result (self.new ≡ self.old) }
    {
        self.lists.add(&self.syntax, list)?;
        Ok(())
    }

    fn add_map(&mut self, map: ShortrefDeclaration) -> Result<(), RefusalError>
        ensures none { OnOk result (map_reason self.old.syntax (map_table self.old) map ≡ None) }
        ensures ok { OnOk result (self.new ≡ with_declared [] self.old (form.Shortref map)) }
        ensures refused { IfErr result (IsRefusal (map_reason self.old.syntax (map_table self.old) map)) }
        ensures err { OnErr result (self.new ≡ self.old) }
    {
        self.maps.declare(&self.syntax, map)?;
        Ok(())
    }

    fn use_map(&mut self, used: UsemapDeclaration) -> Result<(), RefusalError>
        ensures none { OnOk result (use_reason_in self.old.syntax used ≡ None) }
        ensures ok { OnOk result (self.new ≡ with_declared [] self.old (form.Usemap used)) }
        ensures refused { IfErr result (IsRefusal (use_reason_in self.old.syntax used)) }
        ensures err { OnErr result (self.new ≡ self.old) }
    {
        if used.targets.is_none() {
            return Err(RefusalError::Refused(Reason::DeclarationPlace));
        }
        self.maps.use_map(&self.syntax, used)?;
        Ok(())
    }

    fn set_name(&mut self, lexemes: &[Lexeme], head: &DoctypeHead) -> Result<(), RefusalError>
        ensures none { OnOk result (head_reason self.old.syntax lexemes.now self.old.name head.now ≡ None) }
        ensures ok { OnOk result (self.new ≡ with_declared [] self.old (form.Doctype head.now)) }
        ensures refused { IfErr result (IsRefusal (head_reason self.old.syntax lexemes.now self.old.name head.now)) }
        ensures err { OnErr result (self.new ≡ self.old) }
    {
        let name = declared_name(self.alloc, &self.syntax, lexemes, &self.name, head)?;
        self.name = Some(name);
        Ok(())
    }

    /// Judges what may only be judged where the document type ends: each map that is used (11.6) and
    /// each notation of external data (11.4) is declared.
    pub fn finish(&self) -> Result<(), RefusalError>
        ensures ok { OnOk result (final_reason self.now ≡ None) }
        ensures refused { IfErr result (IsEnd (final_reason self.now)) }
    {
        if self.maps.has_unknown() {
            return Err(RefusalError::Refused(Reason::MapUnknown));
        }
        if any_lacks_notation(&self.entities) {
            return Err(RefusalError::Refused(Reason::NotationUnknown));
        }
        Ok(())
    }

    /// The number of an element type, in order of declaration from 0, those of one group in the
    /// group's order.
    pub fn element(&self, name: &Name) -> Option<u32>
        ensures { result ≡ number_of self.now.elements name.now }
    {
        self.elements.number(name)
    }

    /// The number of the element type that a tag names so: that of its name as the syntax has it (13.4.5).
    pub fn element_spelled(&self, spelled: &[u8]) -> Result<Option<u32>, Memory>
        requires { 0 < length spelled.now }
        ensures { IfOk result (λ number. number ≡ number_of self.now.elements (general_name self.now.syntax spelled.now)) }
    {
        self.elements
            .number_cased(self.syntax.general_fold, spelled)
    }

    /// How many element types there are. No two have one name.
    pub fn elements(&self) -> u32
        ensures count { result ≡ length (types self.now.elements) }
        ensures distinct { AreDistinct self.now.elements }
    {
        self.elements.count()
    }

    /// The name of an element type.
    pub fn element_name(&self, number: u32) -> &Name
        requires { number < length (types self.now.elements) }
        ensures { option_map (λ t. t.name) (slice_get (types self.now.elements) number) ≡ Some result.now }
    {
        self.elements.name(number)
    }

    /// The attribute definitions of an element type: none where no attribute list names it (11.3).
    #[inline(always)]
    pub fn definitions(&self, number: u32) -> &[Definition]
        requires { number < length (types self.now.elements) }
        ensures { IsSomeAnd (slice_get (types self.now.elements) number) (λ t. result.now ≡ definitions_for self.now.lists t.name) }
    {
        match self.lists.list_of(self.elements.name(number)) {
            Some(list) => self.lists.definitions(list),
            None => &[],
        }
    }

    /// What may stand in the elements of a type.
    pub fn content(&self, number: u32) -> &Content
        requires { number < length (types self.now.elements) }
        ensures { IsSomeAnd (slice_get (types self.now.elements) number) (λ t. IsContentOf t.body.content result.now) }
    {
        self.elements.content(number)
    }

    /// Makes the tables of the model of an element type, where it has a model without tables. They
    /// change the time that its answers take, and nothing else.
    pub fn prepare(&mut self, number: u32) -> Result<(), Memory>
        ensures { self.new ≡ self.old }
    {
        self.elements.prepare(number)
    }

    /// The exceptions of an element type (11.2.5).
    pub fn exceptions(&self, number: u32) -> &Exceptions
        requires { number < length (types self.now.elements) }
        ensures included { option_map (λ t. t.body.included) (slice_get (types self.now.elements) number) ≡ Some result.now.included }
        ensures excluded { option_map (λ t. t.body.excluded) (slice_get (types self.now.elements) number) ≡ Some result.now.excluded }
    {
        self.elements.exceptions(number)
    }

    /// Which tags of an element type may be left out (11.2.2).
    pub fn omits(&self, number: u32) -> Omits
        requires { number < length (types self.now.elements) }
        ensures { option_map (λ t. t.omits) (slice_get (types self.now.elements) number) ≡ Some result }
    {
        self.elements.omits(number)
    }

    /// The number of the attribute list of an element type, in order of declaration from 0.
    pub fn list(&self, number: u32) -> Option<u32>
        requires { number < length (types self.now.elements) }
        ensures { IsSomeAnd (slice_get (types self.now.elements) number) (λ t. result ≡ list_of self.now.lists t.name) }
    {
        self.lists.list_of(self.elements.name(number))
    }

    /// How many attribute lists there are.
    pub fn lists(&self) -> u32
        ensures { result ≡ length self.now.lists }
    {
        self.lists.count()
    }

    /// The numbers of an attribute among the current values: that of its list, and its own.
    pub fn current_of(&self, number: u32, attribute: u32) -> (u32, u32)
        requires within { number < length (types self.now.elements) }
        requires defined { IsSomeAnd (slice_get (types self.now.elements) number) (λ t. attribute < length (definitions_for self.now.lists t.name)) }
        ensures list { IsSomeAnd (slice_get (types self.now.elements) number) (λ t. list_of self.now.lists t.name ≡ Some result.0) }
        ensures attribute { result.1 ≡ attribute }
    {
        match self.list(number) {
            Some(list) => (list, attribute),
            None => (0, attribute),
        }
    }

    /// The short reference map of an element type: that of the first use that names it (11.6).
    pub fn map_of(&self, number: u32) -> MapOf
        requires { number < length (types self.now.elements) }
        ensures { IsSomeAnd (slice_get (types self.now.elements) number) (λ t. result ≡ map_for (map_table self.now) t.name) }
    {
        self.maps.map_of(self.elements.name(number))
    }

    /// The short reference maps.
    pub fn maps(&self) -> &Maps
        ensures { result.now ≡ self.now.maps }
    {
        self.maps.maps()
    }

    /// The entities and the notations.
    pub fn entities(&self) -> &Entities
        ensures entities { result.now.entities ≡ self.now.entities }
        ensures notations { result.now.notations ≡ self.now.notations }
    {
        &self.entities
    }

    /// Whether the head of the document type was added (11.1).
    pub fn has_doctype(&self) -> bool
        ensures { result ≡ is_some self.now.name }
    {
        self.name.is_some()
    }

    /// The name of the document type, whose head was added (11.1).
    pub fn doctype(&self) -> &Name
        requires { IsSome self.now.name }
        ensures { self.now.name ≡ Some result.now }
    {
        self.name.as_ref().unwrap()
    }

    /// The syntax of the document.
    pub fn syntax(&self) -> &Syntax
        ensures { result.now ≡ self.now.syntax }
    {
        &self.syntax
    }
}
