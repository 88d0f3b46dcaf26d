// The element type that a tag names.
ghost use Rattle.std.specs.Prelude.{◌≡◌, ◌<◌, ◌≤◌, length, map, take, IfOk};
ghost use Rattle.std.specs.Str.{bytes_eq};
ghost use Rattle.sgml_names.specs.Naming.{cased, cased_character, general_name};
ghost use Rattle.sgml_markup.specs.Forms.{parts_of_tag};
ghost use Rattle.sgml_dtd.specs.dtd_elements.Laws.{AreDistinct};
ghost use Rattle.sgml_dtd.specs.dtd_elements.Types.{number_of};
ghost use Rattle.sgml_infer.specs.Tables.{name_at, IsNumber};
ghost use Rattle.sgml_theory_spelling.specs.Tags.{element_name};
ghost use Rattle.sgml_prolog_steps.specs.Found.{rest_in};
ghost use Rattle.sgml_content_steps.specs.Content.{IsContent};
ghost use Rattle.sgml_content_tags.specs.Named.{number_named, IsLone};

use sgml_content_steps::{Content, innermost};
use sgml_dtd::Dtd;
use sgml_entity::Texts;
use sgml_markup::{Part, lone_name, tag_part};
use sgml_names::cased_character;
use sgml_prolog_steps::unread;
use sgml_syntax::Syntax;
use sgml_text::Memory;

/// The tag of so many bytes at the top of the stack.
#[inline(always)]
pub(crate) fn tag_at<'a>(content: &'a Content, texts: &'a Texts, n: u64) -> &'a [u8]
    requires stacked { 0 < length content.now.kept.stack.places }
    requires within { n ≤ length (rest_in content.now.kept texts.now) }
    ensures { result.now ≡ take n (rest_in content.now.kept texts.now) }
{
    let rest = unread(content.kept.dtd.entities(), texts, &content.kept.stack);
    &rest[..n as usize]
}

/// The name of a tag that is a name alone.
#[inline(always)]
pub(crate) fn lone_in(content: &Content, tag: &[u8]) -> Option<Part>
    ensures lone { IsLone content.now.kept.doctype.syntax tag.now result }
{
    lone_name(content.kept.dtd.syntax(), tag)
}

/// The number of the element type that a tag names (7.4, 7.5), which may be a name alone.
#[inline(always)]
pub(crate) fn number_named(
    content: &Content,
    tag: &[u8],
    lone: Option<Part>,
) -> Result<Option<u32>, Memory>
    requires { IsLone content.now.kept.doctype.syntax tag.now lone }
    ensures { IfOk result (λ number. number ≡ number_named content.now.kept.doctype tag.now) }
{
    number_in(&content.kept.dtd, tag, lone)
}

/// The same of an end-tag, which mostly names the type of the innermost element.
#[inline(always)]
pub(crate) fn number_ended(content: &Content, tag: &[u8]) -> Result<Option<u32>, Memory>
    requires content { IsContent content.now }
    ensures { IfOk result (λ number. number ≡ number_named content.now.kept.doctype tag.now) }
{
    match innermost(content) {
        Some(opened) => number_by(&content.kept.dtd, tag, opened),
        None => number_in(&content.kept.dtd, tag, None),
    }
}

#[inline(always)]
#[tactic(auto, unfolding(sgml_theory_spelling::specs::Tags::element_of))]
fn number_in(dtd: &Dtd, tag: &[u8], lone: Option<Part>) -> Result<Option<u32>, Memory>
    requires { IsLone dtd.now.syntax tag.now lone }
    ensures { IfOk result (λ number. number ≡ number_named dtd.now tag.now) }
{
    match name_in(dtd.syntax(), tag, lone) {
        [] => Err(Memory),
        name => dtd.element_spelled(name),
    }
}

// The same, where an element of this type is open.
#[inline(always)]
#[tactic(auto, unfolding(sgml_theory_spelling::specs::Tags::element_of))]
fn number_by(dtd: &Dtd, tag: &[u8], opened: u32) -> Result<Option<u32>, Memory>
    requires number { IsNumber dtd.now opened }
    requires distinct { AreDistinct dtd.now.elements }
    ensures { IfOk result (λ number. number ≡ number_named dtd.now tag.now) }
{
    match spelled(dtd.syntax(), tag) {
        [] => Err(Memory),
        name => number_spelled(dtd, name, opened),
    }
}

#[inline(always)]
fn number_spelled(dtd: &Dtd, name: &[u8], opened: u32) -> Result<Option<u32>, Memory>
    requires some { 0 < length name.now }
    requires number { IsNumber dtd.now opened }
    requires distinct { AreDistinct dtd.now.elements }
    ensures { IfOk result (λ number. number ≡ number_of dtd.now.elements (general_name dtd.now.syntax name.now)) }
{
    if is_name_of(dtd, opened, name) {
        Ok(Some(opened))
    } else {
        dtd.element_spelled(name)
    }
}

/// Whether the name that is spelled so is that of the element type.
#[inline(always)]
pub(crate) fn is_name_of(dtd: &Dtd, number: u32, name: &[u8]) -> bool
    requires { IsNumber dtd.now number }
    ensures { result ≡ bytes_eq (general_name dtd.now.syntax name.now) (name_at dtd.now number) }
{
    is_cased(
        dtd.syntax().general_fold,
        name,
        dtd.element_name(number).items(),
    )
}

#[inline(always)]
fn is_cased(folded: bool, bytes: &[u8], name: &[u8]) -> bool
    ensures { result ≡ bytes_eq (cased folded bytes.now) name.now }
{
    spells(folded, bytes, name)
}

// Whether these bytes are the name, when they are folded.
#[inline(always)]
fn spells(folded: bool, bytes: &[u8], name: &[u8]) -> bool
    ensures { result ≡ bytes_eq (map (cased_character folded) bytes.now) name.now }
{
    if bytes.len() != name.len() {
        return false;
    }
    let mut i = 0;
    'bytes: while i < bytes.len() {
        if cased_character(folded, bytes[i]) != name[i] {
            return false;
        }
        i += 1;
    }
    true
}

// The name of a tag that may be a name alone.
#[inline(always)]
fn name_in<'a>(syntax: &Syntax, tag: &'a [u8], lone: Option<Part>) -> &'a [u8]
    requires { IsLone syntax.now tag.now lone }
    ensures { result.now ≡ element_name tag.now (parts_of_tag syntax.now tag.now) }
{
    match lone {
        Some(part) => &tag[part.from..part.to],
        None => spelled(syntax, tag),
    }
}

// The name as it is spelled, which is the first part of a tag.
fn spelled<'a>(syntax: &Syntax, tag: &'a [u8]) -> &'a [u8]
    ensures { result.now ≡ element_name tag.now (parts_of_tag syntax.now tag.now) }
{
    match tag_part(syntax, tag, 0) {
        Some(part) => &tag[part.from..part.to],
        None => &[],
    }
}
