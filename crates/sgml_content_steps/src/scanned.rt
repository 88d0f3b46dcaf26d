// The state in which content is scanned.
ghost use Rattle.std.specs.Prelude.{◌≡◌, true, IfSome};
ghost use Rattle.sgml_infer.specs.Tables.{IsNumber};
ghost use Rattle.sgml_theory_starts.specs.theory_spelling.Places.{is_map};
ghost use Rattle.sgml_theory_starts.specs.theory_standing.Held.{Held};
ghost use Rattle.sgml_content_steps.specs.Standing.{IsHeld};
ghost use Rattle.sgml_content_steps.specs.Modes.{is_of_instance, IsInnermost, IsModeOf, IsModeInside};
ghost use Rattle.sgml_prolog_steps.specs.Found.{innermost};
ghost use Rattle.sgml_content_steps.specs.Content.{Holds, IsContent, context_of};

use crate::content::Content;
use crate::mode::{mode_by, mode_of_kind};
use sgml_delim::Mode;
use sgml_dtd_maps::MapOf;
use sgml_prolog_steps::Kept;
use sgml_scan::ScanState;

/// The state in which content is scanned at the top of the stack: its mode, whether NET is in force, and
/// whether a short reference map is (7.4.1.3, 9.6.1, 11.6).
#[inline(always)]
pub fn scan_state(content: &Content) -> ScanState
    requires content { IsContent content.now }
    ensures held { (x : Held) → Holds content.now x → IsHeld content.now.kept result x }
    ensures mode { is_of_instance result.mode ≡ true }
{
    let element = innermost(content);
    let mode = element_mode(content, element);
    ScanState {
        mode: mode_in(&content.kept, element, mode),
        net: content.tree.net(),
        maps: is_map(content.inside.map()),
    }
}

/// The mode where the innermost open element is of this type, whose content has this one.
#[inline(always)]
fn mode_in(kept: &Kept, element: Option<u32>, mode: Mode) -> Mode
    requires { IsModeOf kept.now.doctype element mode }
    ensures mode { IsModeInside kept.now.doctype element (innermost kept.now.sections) result }
    ensures instance { is_of_instance result ≡ true }
{
    mode_by(mode, kept.sections.innermost())
}

/// The mode of the content of an element; before the document element that of any.
#[inline(always)]
fn element_mode(content: &Content, element: Option<u32>) -> Mode
    requires content { IsContent content.now }
    requires number { IfSome element (IsNumber content.now.kept.doctype) }
    ensures { IsModeOf content.now.kept.doctype element result }
{
    match element {
        Some(number) => mode_of_kind(content.tree.content_kind(number)),
        None => Mode::Con,
    }
}

/// The number of the type of the innermost open element.
pub fn innermost(content: &Content) -> Option<u32>
    requires content { IsContent content.now }
    ensures open { IsInnermost content.now.kept.doctype result (context_of content.now).levels }
    ensures number { IfSome result (IsNumber content.now.kept.doctype) }
{
    let depth = content.tree.depth();
    if depth == 0 {
        None
    } else {
        Some(content.tree.path(depth - 1))
    }
}

fn is_map(map: MapOf) -> bool
    ensures { result ≡ is_map map }
{
    match map {
        MapOf::Map(_) => true,
        MapOf::Parent | MapOf::Empty => false,
    }
}
