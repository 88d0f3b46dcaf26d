// The keyword of a declaration that begins the document.
ghost use Rattle.std.specs.Prelude.{◌≡◌, ◌≤◌, ◌==◌, length, drop};
ghost use Rattle.sgml_decl_lexemes.specs.decl_parts.Bytes.{name_length};
ghost use Rattle.sgml_delim.specs.Ends.{first_name, is_doctype};
ghost use Rattle.sgml_declared.specs.theory_spelling.Prolog.{may_stand_before, reason_before};
ghost use Rattle.sgml_declared.specs.theory_spelling.SgmlDeclared.{begins_sgml};
ghost use Rattle.sgml_prolog_steps.specs.Telling.{is_unsure};

use sgml_text::{NameSet, Reason, is_word};

/// The name characters that these bytes begin with.
fn keyword<'a>(names: &NameSet, bytes: &'a [u8]) -> &'a [u8]
    ensures { result.now ≡ first_name names.now bytes.now }
{
    &bytes[..names.name_length(bytes)]
}

/// Whether these bytes begin with the `<` of a declaration, and more of them decides its keyword.
pub(crate) fn is_unsure(names: &NameSet, bytes: &[u8]) -> bool
    ensures { result ≡ is_unsure names.now bytes.now }
{
    match bytes {
        [b'<'] => true,
        [b'<', b'!', rest @ ..] => names.name_length(rest) == rest.len(),
        _ => false,
    }
}

/// Whether these bytes begin an SGML declaration (13).
pub(crate) fn begins_sgml(names: &NameSet, bytes: &[u8]) -> bool
    ensures { result ≡ begins_sgml names.now bytes.now }
{
    match bytes {
        [b'<', b'!', rest @ ..] => is_word(b"SGML", keyword(names, rest)),
        _ => false,
    }
}

/// The keyword of the declaration that these bytes are.
pub fn keyword_of<'a>(names: &NameSet, own: &'a [u8]) -> &'a [u8]
    ensures { result.now ≡ first_name names.now (drop 2 own.now) }
{
    keyword(names, after_opening(own))
}

/// What follows `<!`.
fn after_opening(own: &[u8]) -> &[u8]
    ensures { result.now ≡ drop 2 own.now }
{
    if 2 < own.len() { &own[2..] } else { &[] }
}

/// Whether these bytes, which follow the `<!` of a declaration, begin with the keyword DOCTYPE (11.1).
fn begins_doctype(names: &NameSet, rest: &[u8]) -> bool
    ensures { result ≡ is_doctype names.now rest.now }
{
    is_word(b"DOCTYPE", keyword(names, rest))
}

/// Whether these bytes begin what may stand before the document type (7.1).
fn may_stand_before(names: &NameSet, bytes: &[u8]) -> bool
    ensures { result ≡ may_stand_before names.now bytes.now }
{
    match bytes {
        [b'<', b'?', ..] => true,
        [b'<', b'!', rest @ ..] => {
            matches!(rest, [b'-' | b'>', ..]) || begins_doctype(names, rest)
        }
        _ => false,
    }
}

/// Why what stands before the document type is refused: what is unclosed may be something else than
/// may stand there.
pub(crate) fn reason_before(names: &NameSet, bytes: &[u8], reason: Reason) -> Reason
    ensures { result ≡ reason_before names.now bytes.now reason }
{
    match reason {
        Reason::NonSgml => reason,
        Reason::DeclarationSyntax => reason,
        Reason::PiLength => reason,
        Reason::Unclosed => {
            if may_stand_before(names, bytes) {
                Reason::Unclosed
            } else {
                Reason::NoDoctype
            }
        }
        _ => Reason::NoDoctype,
    }
}
