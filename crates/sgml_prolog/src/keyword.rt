// The keyword of a declaration before the document type.
ghost use Rattle.std.specs.Prelude.{◌≡◌, ◌<◌, ◌≤◌, length};
ghost use Rattle.sgml_declared.specs.decl_parts.Ends.{is_doctype};
ghost use Rattle.sgml_prolog_steps.specs.Found.{rest_in};
ghost use Rattle.sgml_prolog.specs.Heads.{is_head};

use sgml_entity::Texts;
use sgml_prolog_steps::{Kept, keyword_of, unread};
use sgml_scan::Token;
use sgml_text::{NameSet, is_word};

/// Whether the declaration that this token is begins a document type (11.1).
pub fn is_head(kept: &Kept, texts: &Texts, token: Token) -> bool
    requires stacked { 0 < length kept.now.stack.places }
    requires within { token.length ≤ length (rest_in kept.now texts.now) }
    ensures { result ≡ is_head kept.now texts.now token }
{
    let rest = unread(kept.dtd.entities(), texts, &kept.stack);
    is_doctype(&kept.dtd.syntax().names, &rest[..token.length as usize])
}

fn is_doctype(names: &NameSet, own: &[u8]) -> bool
    ensures { result ≡ is_doctype names.now own.now }
{
    is_word(b"DOCTYPE", keyword_of(names, own))
}
