// What a parser keeps in content.
ghost use Rattle.std.specs.Prelude.{◌≡◌, ◌+◌, ◌^◌, ◌<◌, length};
ghost use Rattle.sgml_entity.specs.Stack.{offset_of};
ghost use Rattle.sgml_prolog_steps.specs.Found.{moved_on, rest_in};

use sgml_attr::Currents;
use sgml_entity::Texts;
use sgml_infer::Tree;
use sgml_inside::Inside;
use sgml_prolog_steps::{Kept, unread};
use std::marker::Model;

/// What a parser keeps in content: what was kept of the prolog and the texts, the open elements, what stands
/// directly in each, and the current values.
#[derive(Drop)]
pub struct Content {
    pub kept: Kept,
    pub tree: Tree,
    pub inside: Inside,
    pub currents: Currents,
}

impl Model for Content {
    ghost use Rattle.sgml_content_steps.specs.Content.{Content as Shown};

    ghost Value = { Shown };

    ghost view = { λ a. record { kept = a.kept; tree = a.tree; inside = a.inside; currents = a.currents } };
}

/// What is unread of the text at the top.
#[inline(always)]
pub fn rest_at<'a>(content: &'a Content, texts: &'a Texts) -> &'a [u8]
    requires stacked { 0 < length content.now.kept.stack.places }
    ensures value { result.now ≡ rest_in content.now.kept texts.now }
    ensures fits { offset_of content.now.kept.stack.places + length result.now < 2 ^ 64 }
{
    unread(content.kept.dtd.entities(), texts, &content.kept.stack)
}

/// Goes on in the text at the top by so many bytes.
#[inline(always)]
pub fn advance(content: &mut Content, n: u64)
    requires stacked { 0 < length content.old.kept.stack.places }
    requires fits { offset_of content.old.kept.stack.places + n < 2 ^ 64 }
    ensures { content.new ≡ record content.old { kept = moved_on n content.old.kept } }
{
    content.kept.stack.advance(n);
}
