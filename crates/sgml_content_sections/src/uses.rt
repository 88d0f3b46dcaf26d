// The uses of maps in content.
ghost use Rattle.std.specs.Prelude.{◌≡◌, ◌<◌, ◌≤◌, [], length, IfErr, IfOk, IsSome, OnErr};
ghost use Rattle.sgml_decl_lexemes.specs.decl_parts.declared.ends.Construct.TheVariants.{Declaration as DeclarationText};
ghost use Rattle.sgml_dtd.specs.Doctypes.{Doctype};
ghost use Rattle.sgml_dtd_maps.specs.Tables.{numbered_map};
ghost use Rattle.sgml_scan.specs.markup.declared.kinds.TokenKind.TheVariants as kind;
ghost use Rattle.sgml_content_steps.specs.sgml_infer.Trees.{HasPlaces, context_in};
ghost use Rattle.sgml_declared.specs.theory_spelling.Content.{has_open};
ghost use Rattle.sgml_declared.specs.Taking.{Ends, IsWhole};
ghost use Rattle.sgml_prolog_steps.specs.Found.{rest_in};
ghost use Rattle.sgml_content_steps.specs.Content.{IsContent};
ghost use Rattle.sgml_content_steps.specs.Steps.{TakesIn};
ghost use Rattle.sgml_content_sections.specs.Uses.{IsUseRead, IsNotUsed, map_set_in, stop_for};

use crate::lexing::read_lexemes;
use crate::saying::use_said;
use sgml_content_steps::Content;
use sgml_content_steps::infer::Tree;
use sgml_declared::Options;
use sgml_dtd_maps::MapOf;
use sgml_entity::Texts;
use sgml_inside::Item;
use sgml_prolog_steps::{Kept, Stop, go_back, sgml_reason, stop_of};
use sgml_scan::Token;
use sgml_text::RefusalError;
use std::alloc::Global;

/// A declaration in content: the use of a map, which is the one of the innermost element from then on (11.6).
/// No other has its place there, and that ranks before a reference to no character in one that is whole (9.5).
pub fn take_use(
    options: &Options,
    alloc: Global,
    content: &mut Content,
    texts: &Texts,
    token: Token,
) -> Result<(), Stop>
    requires content { IsContent content.old }
    requires within { token.length ≤ length (rest_in content.old.kept texts.now) }
    requires kind { token.kind ≡ kind.Declaration }
    requires whole { Ends DeclarationText content.old.kept.doctype texts.now content.old.kept.stack token.length }
    ensures { TakesIn options.now texts.now token content.old content.new [] result }
{
    match sgml_reason(alloc, &content.kept, texts, token.length) {
        Ok(None) => {}
        Ok(Some(reason)) => return Err(Stop::Refused(reason)),
        Err(_) => return Err(Stop::Memory),
    }
    let inside = is_inside(&content.tree);
    match read_use(options, alloc, &mut content.kept, texts, inside) {
        Ok(number) => {
            set_map(content, number);
            Ok(())
        }
        Err(error) => Err(error),
    }
}

// The declaration is markup in the innermost element, and sets its map.
fn set_map(content: &mut Content, number: Option<u32>)
    ensures { content.new ≡ map_set_in number content.old }
{
    content.inside.note(Item::Markup);
    content.inside.set_map(numbered_map(number));
}

// Whether an element is open.
fn is_inside(tree: &Tree) -> bool
    requires { HasPlaces tree.now }
    ensures { (t : Doctype) → result ≡ has_open (context_in t tree.now).levels }
{
    tree.depth() > 0
}

fn numbered_map(number: Option<u32>) -> MapOf
    ensures { result ≡ numbered_map number }
{
    match number {
        Some(number) => MapOf::Map(number),
        None => MapOf::Empty,
    }
}

// The map that is used, none for `#EMPTY`. The declaration is read over.
fn read_use(
    options: &Options,
    alloc: Global,
    kept: &mut Kept,
    texts: &Texts,
    inside: bool,
) -> Result<Option<u32>, Stop>
    requires stacked { 0 < length kept.old.stack.places }
    requires whole { IsWhole DeclarationText kept.old.doctype texts.now kept.old.stack }
    requires named { IsSome kept.old.subset → IsSome kept.old.doctype.name }
    ensures ok { IfOk result (IsUseRead options.now texts.now inside kept.old kept.new) }
    ensures err { IfErr result (IsNotUsed options.now texts.now inside kept.old) }
    ensures left { OnErr result (kept.new ≡ kept.old) }
{
    let mark = kept.stack.mark();
    let lexemes = match read_lexemes(options, alloc, kept, texts) {
        Ok(lexemes) => lexemes,
        Err(error) => return Err(stop_of(error)),
    };
    match use_said(alloc, &kept.dtd, inside, lexemes.items()) {
        Ok(number) => Ok(number),
        Err(error) => {
            go_back(kept, mark);
            Err(stop_for(error))
        }
    }
}

fn stop_for(error: RefusalError) -> Stop
    ensures { result ≡ stop_for error }
{
    match error {
        RefusalError::Refused(reason) => Stop::Refused(reason),
        RefusalError::Memory => Stop::Memory,
    }
}
