// What is read: a declaration, the start of a marked section, the end of a document type, and a
// literal of a tag.
ghost use Rattle.std.specs.Prelude.{◌≡◌, ◌+◌, ◌<◌, ◌^◌, ◌++◌, length, drop, IfSome, ◌∷◌, [], IfOk, IfErr, OnErr, OnOk, Ok, true};
ghost use Rattle.std.specs.List.{list_all};
ghost use Rattle.sgml_entity.specs.Stack.{moved_to, offset_of};
ghost use Rattle.sgml_decl_lexemes.specs.Readings.{entity_of};
ghost use Rattle.sgml_decl_parts.specs.declared.ends.Construct.TheVariants.{Declaration, SectionStart, SubsetEnd, Literal};
ghost use Rattle.sgml_decl_lexemes.specs.declared.lexeme.Lexeme.TheVariants.{Value};
ghost use Rattle.sgml_decl_lexemes.specs.Declares.{begins, left_at, is_plain, IsQuoted, Answers, AnswersError, AnswersValue, StandsAfter, asked, IsScanned};

use crate::fault::LexError;
use crate::lexeme::{Lexemes, into_value};
use crate::plain::plain_text;
use crate::reader::read_construct;
use crate::start::{one_keyword, plain_start};
use crate::top::{after, unread};
use sgml_decl_parts::Construct;
use sgml_entity::{Entities, InputStack, Texts};
use sgml_syntax::Syntax;
use sgml_text::Units;
use std::alloc::Global;

/// The lexemes of the declaration that begins with `<!` at the top of the stack, with its references
/// replaced (10, 11). `ended` tells whether the document's text is whole. Afterwards the stack
/// stands directly after the declaration.
///
/// It is refused by the first of these reasons that holds: `NonSgml` and `Unclosed` of its own text;
/// then the first fault in reading. Where that is a reference, what is too long among the lexemes before
/// it is told first, after `NonSgml` and `CharNumber`: `NameLength`, then `LiteralLimit` (13.4.8). Of a
/// declaration that is read to its end neither is judged here. An error leaves the stack as it was.
pub fn lexemes(
    alloc: Global,
    syntax: &Syntax,
    entities: &Entities,
    stack: &mut InputStack,
    texts: &Texts,
    ended: bool,
) -> Result<Lexemes, LexError>
    requires { begins Declaration entities.now.entities texts.now stack.old.places ≡ true }
    ensures ok { IfOk result (λ ds. Answers (asked Declaration syntax.now entities.now texts.now stack.old ended) (Ok ds) stack.new) }
    ensures err { IfErr result (λ e. AnswersError (asked Declaration syntax.now entities.now texts.now stack.old ended) e stack.new) }
    ensures after { OnOk result (StandsAfter (asked Declaration syntax.now entities.now texts.now stack.old ended) stack.new) }
    ensures err_stack { OnErr result (stack.new ≡ stack.old) }
{
    read_construct(
        alloc,
        Construct::Declaration,
        syntax,
        entities,
        stack,
        texts,
        ended,
        None,
    )
}

/// The same of a declaration that was scanned: it has so many bytes, all of them SGML characters.
pub fn scanned_lexemes(
    alloc: Global,
    syntax: &Syntax,
    entities: &Entities,
    stack: &mut InputStack,
    texts: &Texts,
    length: u64,
) -> Result<Lexemes, LexError>
    requires begins { begins Declaration entities.now.entities texts.now stack.old.places ≡ true }
    requires scanned { IsScanned (asked Declaration syntax.now entities.now texts.now stack.old true) length }
    ensures ok { IfOk result (λ ds. Answers (asked Declaration syntax.now entities.now texts.now stack.old true) (Ok ds) stack.new) }
    ensures err { IfErr result (λ e. AnswersError (asked Declaration syntax.now entities.now texts.now stack.old true) e stack.new) }
    ensures after { OnOk result (StandsAfter (asked Declaration syntax.now entities.now texts.now stack.old true) stack.new) }
    ensures err_stack { OnErr result (stack.new ≡ stack.old) }
{
    read_construct(
        alloc,
        Construct::Declaration,
        syntax,
        entities,
        stack,
        texts,
        true,
        Some(length),
    )
}

/// The status keywords of the marked section that starts with `<![` at the top of the stack, with
/// parameter references replaced, and then the `[` that ends its start (10.4). Whether they are
/// status keywords isn't judged; but where a reference isn't replaced, a word before it that is none of
/// them and passes NAMELEN is `NameLength`. The stack, the reasons and `ended` are as with `lexemes`.
pub fn section_start(
    alloc: Global,
    syntax: &Syntax,
    entities: &Entities,
    stack: &mut InputStack,
    texts: &Texts,
    ended: bool,
) -> Result<Lexemes, LexError>
    requires { begins SectionStart entities.now.entities texts.now stack.old.places ≡ true }
    ensures ok { IfOk result (λ ds. Answers (asked SectionStart syntax.now entities.now texts.now stack.old ended) (Ok ds) stack.new) }
    ensures err { IfErr result (λ e. AnswersError (asked SectionStart syntax.now entities.now texts.now stack.old ended) e stack.new) }
    ensures after { OnOk result (StandsAfter (asked SectionStart syntax.now entities.now texts.now stack.old ended) stack.new) }
    ensures err_stack { OnErr result (stack.new ≡ stack.old) }
{
    keywords(alloc, syntax, entities, stack, texts, ended, None)
}

/// The same, where its start was scanned and has so many bytes, all of them SGML characters.
pub fn scanned_section_start(
    alloc: Global,
    syntax: &Syntax,
    entities: &Entities,
    stack: &mut InputStack,
    texts: &Texts,
    length: u64,
) -> Result<Lexemes, LexError>
    requires begins { begins SectionStart entities.now.entities texts.now stack.old.places ≡ true }
    requires scanned { IsScanned (asked SectionStart syntax.now entities.now texts.now stack.old true) length }
    ensures ok { IfOk result (λ ds. Answers (asked SectionStart syntax.now entities.now texts.now stack.old true) (Ok ds) stack.new) }
    ensures err { IfErr result (λ e. AnswersError (asked SectionStart syntax.now entities.now texts.now stack.old true) e stack.new) }
    ensures after { OnOk result (StandsAfter (asked SectionStart syntax.now entities.now texts.now stack.old true) stack.new) }
    ensures err_stack { OnErr result (stack.new ≡ stack.old) }
{
    keywords(alloc, syntax, entities, stack, texts, true, Some(length))
}

// The status keywords of the marked section that starts at the top of the stack. `scanned` is how many
// bytes its start has, where its end was found before.
fn keywords(
    alloc: Global,
    syntax: &Syntax,
    entities: &Entities,
    stack: &mut InputStack,
    texts: &Texts,
    ended: bool,
    scanned: Option<u64>,
) -> Result<Lexemes, LexError>
    requires begins { begins SectionStart entities.now.entities texts.now stack.old.places ≡ true }
    requires scanned { IfSome scanned (IsScanned (asked SectionStart syntax.now entities.now texts.now stack.old ended)) }
    ensures ok { IfOk result (λ ds. Answers (asked SectionStart syntax.now entities.now texts.now stack.old ended) (Ok ds) stack.new) }
    ensures err { IfErr result (λ e. AnswersError (asked SectionStart syntax.now entities.now texts.now stack.old ended) e stack.new) }
    ensures after { OnOk result (StandsAfter (asked SectionStart syntax.now entities.now texts.now stack.old ended) stack.new) }
    ensures err_stack { OnErr result (stack.new ≡ stack.old) }
{
    let bytes = after(unread(entities, texts, stack), 3);
    if let Some(start) = plain_start(bytes) {
        let word = &after(bytes, start.gap as u64)[..start.word];
        let lexemes = match one_keyword(alloc, word) {
            Ok(lexemes) => lexemes,
            Err(_) => return Err(LexError::Memory),
        };
        stack.advance((3 + start.gap + start.word + start.space + 1) as u64);
        return Ok(lexemes);
    }
    let construct = Construct::SectionStart;
    read_construct(
        alloc, construct, syntax, entities, stack, texts, ended, scanned,
    )
}

/// Reads the end of the document type whose subset ends with `]` at the top of the stack, up to its
/// `>`: separators, comments and parameter references may stand between them (11.1). There are no
/// lexemes. The stack, the reasons and `ended` are as with `lexemes`.
pub fn subset_end(
    alloc: Global,
    syntax: &Syntax,
    entities: &Entities,
    stack: &mut InputStack,
    texts: &Texts,
    ended: bool,
) -> Result<Lexemes, LexError>
    requires { begins SubsetEnd entities.now.entities texts.now stack.old.places ≡ true }
    ensures ok { IfOk result (λ ds. Answers (asked SubsetEnd syntax.now entities.now texts.now stack.old ended) (Ok ds) stack.new) }
    ensures err { IfErr result (λ e. AnswersError (asked SubsetEnd syntax.now entities.now texts.now stack.old ended) e stack.new) }
    ensures after { OnOk result (StandsAfter (asked SubsetEnd syntax.now entities.now texts.now stack.old ended) stack.new) }
    ensures err_stack { OnErr result (stack.new ≡ stack.old) }
{
    read_construct(
        alloc,
        Construct::SubsetEnd,
        syntax,
        entities,
        stack,
        texts,
        ended,
        None,
    )
}

/// The units of the literal of a tag that goes on at the top of the stack, after this quote, with its
/// references replaced as in an attribute value literal of a declaration (7.9.3). The tag was scanned,
/// so its text has the literal's end. Afterwards the stack stands directly after the quote that ends
/// the literal.
///
/// It is refused by the first fault in reading, by the rows of references; a reference to no character
/// (`CharNumber`) of a text that was opened is kept until the end or the first such row. An error
/// leaves the stack as it was.
pub fn literal(
    alloc: Global,
    syntax: &Syntax,
    entities: &Entities,
    stack: &mut InputStack,
    texts: &Texts,
    quote: u8,
) -> Result<Units, LexError>
    requires { begins (Literal quote) entities.now.entities texts.now stack.old.places ≡ true }
    ensures ok { IfOk result (AnswersValue (asked (Literal quote) syntax.now entities.now texts.now stack.old true) stack.new) }
    ensures err { IfErr result (λ e. AnswersError (asked (Literal quote) syntax.now entities.now texts.now stack.old true) e stack.new) }
    ensures after { OnOk result (StandsAfter (asked (Literal quote) syntax.now entities.now texts.now stack.old true) stack.new) }
    ensures err_stack { OnErr result (stack.new ≡ stack.old) }
{
    if let Some(text) = plain_at(entities, stack, texts, quote) {
        let units = match Units::of_bytes(alloc, text) {
            Ok(units) => units,
            Err(_) => return Err(LexError::Memory),
        };
        stack.advance(text.len() as u64 + 1);
        return Ok(units);
    }
    let construct = Construct::Literal(quote);
    match read_construct(alloc, construct, syntax, entities, stack, texts, true, None) {
        Ok(lexemes) => Ok(into_value(alloc, lexemes)),
        Err(error) => Err(error),
    }
}

// The literal at the top of the stack, up to its quote, if it is plain.
fn plain_at<'a>(
    entities: &'a Entities,
    stack: &InputStack,
    texts: &'a Texts,
    quote: u8,
) -> Option<&'a [u8]>
    requires { 0 < length stack.now.places }
    ensures plain { IfSome result (λ text. list_all (is_plain quote) text.now ≡ true) }
    ensures front { IfSome result (λ text. IsQuoted quote text.now (left_at entities.now.entities texts.now stack.now.places)) }
    ensures fits { IfSome result (λ text. offset_of stack.now.places + (length text.now + 1) < 2 ^ 64) }
{
    plain_text(quote, unread(entities, texts, stack))
}
