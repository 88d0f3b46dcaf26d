// What a declaration in content says.
ghost use Rattle.std.specs.Prelude.{◌≡◌, Some};
ghost use Rattle.sgml_decl_forms.specs.Declarations.{declaration_at};
ghost use Rattle.sgml_decl_forms.specs.declared.declaration.Declaration.TheVariants as form;
ghost use Rattle.sgml_dtd_maps.specs.Rows.{is_long_used};
ghost use Rattle.sgml_declared.specs.theory_spelling.Content.{map_used};
ghost use Rattle.sgml_content_sections.specs.Uses.{declared_in, use_in, TellsMap, TellsUse};

use sgml_decl_forms::{Declaration, UsedMap, UsemapDeclaration, read_declaration};
use sgml_decl_lexemes::Lexeme;
use sgml_dtd::Dtd;
use sgml_names::{general_name, is_long};
use sgml_syntax::Syntax;
use sgml_text::{Reason, RefusalError};
use std::alloc::Global;

/// The map that these lexemes use, none for `#EMPTY` (11.6). `inside` tells whether an element is open.
pub(crate) fn use_said(
    alloc: Global,
    dtd: &Dtd,
    inside: bool,
    lexemes: &[Lexeme],
) -> Result<Option<u32>, RefusalError>
    ensures { TellsUse (declared_in dtd.now inside (declaration_at lexemes.now)) result }
{
    match read_declaration(alloc, lexemes)? {
        Some(said) => use_in(alloc, dtd, inside, said),
        None => Err(RefusalError::Refused(Reason::DeclarationSyntax)),
    }
}

fn use_in(
    alloc: Global,
    dtd: &Dtd,
    inside: bool,
    said: Declaration,
) -> Result<Option<u32>, RefusalError>
    ensures { TellsUse (declared_in dtd.now inside (Some said)) result }
{
    match said {
        Declaration::Usemap(said) => map_in(alloc, dtd, inside, &said),
        Declaration::Element(_) => Err(RefusalError::Refused(Reason::DeclarationPlace)),
        Declaration::Attlist(_) => Err(RefusalError::Refused(Reason::DeclarationPlace)),
        Declaration::Entity(_) => Err(RefusalError::Refused(Reason::DeclarationPlace)),
        Declaration::Notation(_) => Err(RefusalError::Refused(Reason::DeclarationPlace)),
        Declaration::Shortref(_) => Err(RefusalError::Refused(Reason::DeclarationPlace)),
        Declaration::Doctype(_) => Err(RefusalError::Refused(Reason::DeclarationPlace)),
    }
}

// The rows in their order: it has no place; its name passes NAMELEN; it isn't declared.
fn map_in(
    alloc: Global,
    dtd: &Dtd,
    inside: bool,
    said: &UsemapDeclaration,
) -> Result<Option<u32>, RefusalError>
    ensures { TellsUse (use_in dtd.now inside said.now) result }
{
    if said.targets.is_some() || !inside {
        return Err(RefusalError::Refused(Reason::DeclarationPlace));
    }
    if is_long_used(dtd.syntax(), &said.map) {
        return Err(RefusalError::Refused(Reason::NameLength));
    }
    map_used(alloc, dtd, &said.map)
}

fn is_long_used(syntax: &Syntax, map: &UsedMap) -> bool
    ensures { result ≡ is_long_used syntax.now map.now }
{
    match map {
        UsedMap::Empty => false,
        UsedMap::Named(name) => is_long(syntax, name.items()),
    }
}

#[tactic(auto, unfolding(sgml_theory_reading::specs::Types::map_number))]
fn map_used(alloc: Global, dtd: &Dtd, map: &UsedMap) -> Result<Option<u32>, RefusalError>
    ensures { TellsMap (map_used dtd.now map.now) result }
{
    match map {
        UsedMap::Empty => Ok(None),
        UsedMap::Named(name) => {
            let folded = general_name(alloc, dtd.syntax(), name.items())?;
            match dtd.maps().number(&folded) {
                Some(number) => Ok(Some(number)),
                None => Err(RefusalError::Refused(Reason::MapUnknown)),
            }
        }
    }
}
