// What is kept where the instance begins.
ghost use Rattle.std.specs.Prelude.{◌≡◌, ◌≤◌, [], None, IfOk, length, replicate, true};
ghost use Rattle.sgml_declared.specs.theory_reading.Context.{at_start};
ghost use Rattle.sgml_declared.specs.theory_standing.Prologs.{is_over};
ghost use Rattle.sgml_content_tags.specs.sgml_infer.Trees.{IsTreeOf, context_in};
ghost use Rattle.sgml_prolog_steps.specs.Standing.{IsKept};
ghost use Rattle.sgml_instance.specs.Stepping.{HasNothing, IsContentOf};

use sgml_attr::Currents;
use sgml_content_tags::content_steps::Content;
use sgml_content_tags::infer::Tree;
use sgml_inside::Inside;
use sgml_prolog_steps::Kept;
use sgml_text::Memory;
use std::alloc::Global;

/// Beside what was kept of the prolog nothing: no element is open, and no value is current.
pub(crate) fn content_of(alloc: Global, kept: Kept) -> Result<Content, Memory>
    requires kept { IsKept kept }
    requires over { is_over kept ≡ true }
    ensures { IfOk result (IsContentOf kept) }
{
    let (tree, inside, currents) = parts_of(alloc, &kept)?;
    Ok(Content {
        kept,
        tree,
        inside,
        currents,
    })
}

/// The parts beside what was kept, with room for what the document type allows.
fn parts_of(alloc: Global, kept: &Kept) -> Result<(Tree, Inside, Currents), Memory>
    ensures { IfOk result (λ parts. HasNothing kept.now.doctype parts.0 parts.1 parts.2) }
{
    let tree = tree_of(alloc, kept)?;
    let inside = inside_of(alloc, kept)?;
    let currents = currents_of(alloc, kept)?;
    Ok((tree, inside, currents))
}

fn tree_of(alloc: Global, kept: &Kept) -> Result<Tree, Memory>
    ensures tree { IfOk result (λ tree. IsTreeOf kept.now.doctype tree) }
    ensures context { IfOk result (λ tree. context_in kept.now.doctype tree ≡ at_start kept.now.doctype) }
{
    Tree::new(alloc, &kept.dtd)
}

fn inside_of(alloc: Global, kept: &Kept) -> Result<Inside, Memory>
    ensures none { IfOk result (λ inside. inside.elements ≡ []) }
    ensures ended { IfOk result (λ inside. inside.ended ≡ None) }
    ensures room { IfOk result (λ inside. kept.now.doctype.syntax.quantities.taglvl ≤ inside.room) }
{
    Inside::new(alloc, kept.dtd.syntax().quantities.taglvl)
}

fn currents_of(alloc: Global, kept: &Kept) -> Result<Currents, Memory>
    ensures { IfOk result (λ currents. currents ≡ replicate (length kept.now.doctype.lists) []) }
{
    Currents::new(alloc, kept.dtd.lists())
}
