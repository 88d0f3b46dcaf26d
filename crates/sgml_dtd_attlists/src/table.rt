// The attribute lists of a document type.
ghost use Rattle.std.specs.Prelude.{◌≡◌, ◌<◌, ◌++◌, ◌∷◌, [], None, false, take, length, IfOk, IfErr, IfSome, OnOk, OnErr};
ghost use Rattle.sgml_names.specs.Index.{names_of};
ghost use Rattle.sgml_names.specs.Lists.{repeats, with_number};
ghost use Rattle.sgml_text.specs.Refusals.{IsRefusal};
ghost use Rattle.sgml_dtd_attlists.specs.Interpreted.{list_in};
ghost use Rattle.sgml_dtd_attlists.specs.Tables.{list_of, definitions_of};
ghost use Rattle.sgml_dtd_attlists.specs.Rows.{lists_twice, reason};

use crate::interpreting::list_in;
use crate::list::AttributeList;
use crate::rows::{
    any_in_no_group, any_no_token, gives_id, ids_twice, passes_attcnt, passes_litlen,
    passes_namelen, refusals,
};
use crate::twice::{names_twice, tokens_twice};
use sgml_attr::Definition;
use sgml_decl_forms::AttlistDeclaration;
use sgml_names::{NameIndex, any_found, repeats};
use sgml_syntax::Syntax;
use sgml_text::{Memory, Name, Reason, RefusalError};
use std::alloc::Global;
use std::marker::Model;

/// The attribute lists of a document type, numbered from 0 in the order of their declarations
/// (11.3).
#[derive(Drop)]
pub struct Lists {
    alloc: Global,
    lists: Vec<AttributeList>,
    index: NameIndex,
}

impl Model for Lists {
    ghost use Rattle.std.specs.Prelude.{List};
    ghost use Rattle.sgml_dtd_attlists.specs.declared.list.AttributeList.{AttributeList};
    ghost use Rattle.sgml_dtd_attlists.specs.Numbered.{AreNumbered};

    ghost Value = { List AttributeList };

    ghost view = { λ a. a.lists.items };

    ghost invariant = { λ a. AreNumbered a.lists.items a.index };
}

impl Lists {
    /// No list.
    pub fn new(alloc: Global) -> Self
        ensures { result ≡ [] }
    {
        Lists {
            alloc,
            lists: Vec::new(alloc),
            index: NameIndex::new(alloc),
        }
    }

    /// Adds the list of an attribute list declaration (11.3), one for all element types that it
    /// names. Of the reasons against it the first is told in this order: `NameLength`,
    /// `LiteralLimit`, `ListTwice`, `AttributeTwice`, `TokenTwice`, `IdTwice`, `IdDefault`,
    /// `AttrLimit`, `NotAToken`, `NotInGroup`.
    pub fn add(
        &mut self,
        syntax: &Syntax,
        declaration: AttlistDeclaration,
    ) -> Result<(), RefusalError>
        ensures none { OnOk result (reason syntax.now self.old (list_in syntax.now declaration) ≡ None) }
        ensures ok { OnOk result (self.new ≡ self.old ++ list_in syntax.now declaration ∷ []) }
        ensures refused { IfErr result (IsRefusal (reason syntax.now self.old (list_in syntax.now declaration))) }
        ensures err { OnErr result (self.new ≡ self.old) }
    {
        let list = list_in(self.alloc, syntax, declaration)?;
        if let Some(reason) = self.reason(syntax, &list)? {
            return Err(RefusalError::Refused(reason));
        }
        self.insert(list)?;
        Ok(())
    }

    // Why a list is refused.
    fn reason(&self, syntax: &Syntax, list: &AttributeList) -> Result<Option<Reason>, Memory>
        ensures { IfOk result (λ r. r ≡ reason syntax.now self.now list.now) }
    {
        let definitions = list.definitions.items();
        let refusals = refusals(self.alloc, syntax, definitions)?;
        if passes_namelen(syntax, list, &refusals) {
            return Ok(Some(Reason::NameLength));
        }
        if passes_litlen(syntax, list) {
            return Ok(Some(Reason::LiteralLimit));
        }
        if self.lists_twice(list)? {
            return Ok(Some(Reason::ListTwice));
        }
        if names_twice(self.alloc, definitions)? {
            return Ok(Some(Reason::AttributeTwice));
        }
        if tokens_twice(self.alloc, definitions)? {
            return Ok(Some(Reason::TokenTwice));
        }
        if ids_twice(list) {
            return Ok(Some(Reason::IdTwice));
        }
        if gives_id(list) {
            return Ok(Some(Reason::IdDefault));
        }
        if passes_attcnt(syntax, list) {
            return Ok(Some(Reason::AttrLimit));
        }
        if any_no_token(&refusals) {
            return Ok(Some(Reason::NotAToken));
        }
        if any_in_no_group(&refusals) {
            return Ok(Some(Reason::NotInGroup));
        }
        Ok(None)
    }

    // Whether an element type has a list, or stands twice.
    fn lists_twice(&self, list: &AttributeList) -> Result<bool, Memory>
        ensures { IfOk result (λ twice. twice ≡ lists_twice self.now list.now) }
    {
        if any_found(&self.index, list.names.items()) {
            return Ok(true);
        }
        repeats(self.alloc, list.names.items())
    }

    // Adds a list of element types that have none.
    fn insert(&mut self, list: AttributeList) -> Result<(), Memory>
        requires { lists_twice self.old list ≡ false }
        ensures ok { OnOk result (self.new ≡ self.old ++ list ∷ []) }
        ensures err { OnErr result (self.new ≡ self.old) }
    {
        if self.lists.len() >= u32::MAX as usize {
            return Err(Memory);
        }
        let number = self.lists.len() as u32;
        self.lists.reserve(1)?;
        let before = self.index.len();
        match add_names(&mut self.index, list.names.items(), number) {
            Ok(()) => {
                self.lists.push_reserved(list);
                Ok(())
            }
            Err(error) => {
                self.index.truncate(before);
                Err(error)
            }
        }
    }

    /// The number of the list of an element type, if it has one.
    pub fn list_of(&self, element: &Name) -> Option<u32>
        ensures of { result ≡ list_of self.now element.now }
        ensures within { IfSome result (λ n. n < length self.now) }
    {
        self.index.number(element.items())
    }

    /// The definitions of a list, in their order.
    pub fn definitions(&self, list: u32) -> &[Definition]
        requires { list < length self.now }
        ensures { result.now ≡ definitions_of self.now list }
    {
        self.lists[list as usize].definitions.items()
    }

    /// How many lists there are.
    pub fn count(&self) -> u32
        ensures { result ≡ length self.now }
    {
        self.lists.len() as u32
    }
}

// Gives the number to each of these names, none of which is in the table.
fn add_names(index: &mut NameIndex, names: &[Name], number: u32) -> Result<(), Memory>
    requires { repeats (names_of index.old) names.now ≡ false }
    ensures ok { OnOk result (index.new ≡ index.old ++ with_number number names.now) }
    ensures front { take (length index.old) index.new ≡ index.old }
{
    let mut rest = names;
    'names: while let [name, after @ ..] = rest {
        index.add(name.items(), number)?;
        rest = after;
    }
    Ok(())
}
