// What is around a separator.
ghost use Rattle.std.specs.Prelude.{◌≡◌, IfSome};
ghost use Rattle.sgml_infer.specs.Tables.{IsNumber};
ghost use Rattle.sgml_prolog_steps.specs.Found.{innermost};
ghost use Rattle.sgml_content_steps.specs.Content.{IsContent};
ghost use Rattle.sgml_content_data.specs.Roles.{around_of, text_of, is_text_in};

use sgml_content_steps::{Content, innermost};
use sgml_marked::Status;
use sgml_prolog_steps::Kept;

/// What is around a separator in content, as far as it tells what the separator is.
#[derive(Clone, Copy, Debug, PartialEq, Eq)]
pub struct Around {
    /// The innermost element has `#PCDATA` in its content.
    pub text: bool,
    /// The innermost marked section is of characters.
    pub section: bool,
}

/// What is around data where there is `#PCDATA`, and no marked section of characters.
pub(crate) const IN_TEXT: Around = Around {
    text: true,
    section: false,
};

/// What is around what stands next.
pub fn look_around(content: &Content) -> Around
    requires { IsContent content.now }
    ensures { result ≡ around_of content.now }
{
    Around {
        text: text_in(content, innermost(content)),
        section: in_text_section(&content.kept),
    }
}

/// Whether the innermost element has `#PCDATA` in its content.
pub fn has_text(content: &Content) -> bool
    requires { IsContent content.now }
    ensures { result ≡ (around_of content.now).text }
{
    text_in(content, innermost(content))
}

/// Whether an element has `#PCDATA` in its content; outside all elements there is none.
#[inline(always)]
fn text_in(content: &Content, element: Option<u32>) -> bool
    requires content { IsContent content.now }
    requires number { IfSome element (IsNumber content.now.kept.doctype) }
    ensures { result ≡ text_of content.now.kept.doctype element }
{
    match element {
        Some(number) => content.tree.has_text(number),
        None => false,
    }
}

/// Whether the innermost marked section is a CDATA or RCDATA one (10.4.2).
fn in_text_section(kept: &Kept) -> bool
    ensures { result ≡ is_text_in (innermost kept.now.sections) }
{
    is_text_in(kept.sections.innermost())
}

fn is_text_in(status: Option<Status>) -> bool
    ensures { result ≡ is_text_in status }
{
    match status {
        Some(Status::Cdata) => true,
        Some(Status::Rcdata) => true,
        Some(Status::Ignore) => false,
        Some(Status::Include) => false,
        None => false,
    }
}
