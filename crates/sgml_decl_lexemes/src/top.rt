// The text of an entity, and what isn't read of the one at the top of the stack.
ghost use Rattle.std.specs.Prelude.{◌≡◌, ◌<◌, ◌+◌, ◌^◌, drop, length};
ghost use Rattle.std.specs.Option.{option_map};
ghost use Rattle.sgml_entity.specs.Entities.{entity_at};
ghost use Rattle.sgml_entity.specs.Stack.{offset_of};
ghost use Rattle.sgml_decl_lexemes.specs.Sources.{body_text, internal_text, or_empty, text_at};
ghost use Rattle.sgml_decl_lexemes.specs.Declares.{left_at};

use sgml_entity::{Body, Entities, InputStack, Texts};

/// The text of an entity: that of an internal one, or the one that was given. `None`: it has none, or wasn't given one.
#[inline(always)]
pub fn text_at<'a>(entities: &'a Entities, texts: &'a Texts, entity: u32) -> Option<&'a [u8]>
    ensures { option_map (λ t. t.now) result ≡ text_at entities.now.entities texts.now entity }
{
    match internal_text(entities, entity) {
        Some(text) => Some(text),
        None => texts.get(entity),
    }
}

/// The bytes of the text at the top of the stack from its place on, as far as they were given.
#[inline(always)]
pub fn unread<'a>(entities: &'a Entities, texts: &'a Texts, stack: &InputStack) -> &'a [u8]
    requires { 0 < length stack.now.places }
    ensures value { result.now ≡ left_at entities.now.entities texts.now stack.now.places }
    ensures fits { offset_of stack.now.places + length result.now < 2 ^ 64 }
{
    match stack.top() {
        Some(place) => after(text_of(entities, texts, place.entity), place.at),
        None => &[],
    }
}

/// The text of an entity, an empty one where it has none.
#[inline(always)]
pub(crate) fn text_of<'a>(entities: &'a Entities, texts: &'a Texts, entity: u32) -> &'a [u8]
    ensures { result.now ≡ or_empty (text_at entities.now.entities texts.now entity) }
{
    match text_at(entities, texts, entity) {
        Some(text) => text,
        None => &[],
    }
}

/// The text of an internal entity.
#[inline(always)]
pub(crate) fn internal_text(entities: &Entities, entity: u32) -> Option<&[u8]>
    ensures { option_map (λ t. t.now) result ≡ internal_text (entity_at entities.now.entities entity) }
{
    match entities.get(entity) {
        Some(e) => body_text(&e.body),
        None => None,
    }
}

#[inline(always)]
fn body_text(body: &Body) -> Option<&[u8]>
    ensures { option_map (λ t. t.now) result ≡ body_text body.now }
{
    match body {
        Body::Sgml(text) => Some(text.items()),
        _ => None,
    }
}

/// The bytes from an offset on.
#[inline(always)]
pub(crate) fn after(bytes: &[u8], at: u64) -> &[u8]
    ensures value { result.now ≡ drop at bytes.now }
    ensures fits { at + length result.now < 2 ^ 64 }
{
    if at < bytes.len() as u64 {
        &bytes[at as usize..]
    } else {
        &[]
    }
}
