// How much of a document is held.
ghost use Rattle.std.specs.Prelude.{◌≡◌, ◌-◌, length};
ghost use Rattle.sgml_entity.specs.Texts.{text_of};
ghost use Rattle.sgml_decl_lexemes.specs.Sources.{or_empty};
ghost use Rattle.sgml_parse.specs.Held.{lowest};

use sgml_entity::{InputStack, Texts};
use sgml_prolog_steps::Kept;
use sgml_text::Place;

/// How many bytes of the document's text were given and aren't read.
pub(crate) fn held(kept: &Kept, texts: &Texts) -> u64
    ensures { result ≡ length (or_empty (text_of texts.now 0)) - (lowest kept.now.stack.places).at }
{
    given(texts).saturating_sub(lowest(&kept.stack).at)
}

/// How many bytes of it were given.
fn given(texts: &Texts) -> u64
    ensures { result ≡ length (or_empty (text_of texts.now 0)) }
{
    match texts.get(0) {
        Some(text) => text.len() as u64,
        None => 0,
    }
}

/// The place of the text that lies under all others.
fn lowest(stack: &InputStack) -> Place
    ensures { result ≡ lowest stack.now.places }
{
    match stack.place(stack.height().saturating_sub(1)) {
        Some(place) => place,
        None => Place { entity: 0, at: 0 },
    }
}
