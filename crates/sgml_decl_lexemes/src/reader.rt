// One reader for a declaration, the start of a marked section, the end of a document type and a
// literal of a tag.
ghost use Rattle.std.specs.Prelude.{◌≡◌, ◌+◌, ◌<◌, ◌≤◌, ◌^◌, ◌==◌, ◌&&◌, not, length, take, drop, IfOk, IfErr, IfSome, OnErr, OnOk, Ok, true};
ghost use Rattle.sgml_entity.specs.Stack.{offset_of, moved_to};
ghost use Rattle.sgml_decl_parts.specs.Bytes.{begins_name};
ghost use Rattle.sgml_decl_parts.specs.Ends.{before, construct_end};
ghost use Rattle.sgml_decl_lexemes.specs.Sources.{text_at, or_empty, unread};
ghost use Rattle.sgml_decl_lexemes.specs.Readings.{begun, form_at, first_reading, error_of, EndsWithQuote, IsValue};
ghost use Rattle.sgml_decl_lexemes.specs.Declares.{begins, begins_declaration, begins_section, begins_subset_end, is_begun, Answers, AnswersError, HasLexemes, IsStop, IsNoOwn, StandsAfter, asked, own_at, without_end, EndsAfter, IsScanned};
ghost use Rattle.sgml_decl_lexemes.specs.Declares.{Whole};
ghost use Rattle.sgml_decl_lexemes.specs.Readings.{OnTop};

use crate::fault::{Fault, LexError};
use crate::lexeme::Lexemes;
use crate::progress::{Progress, first_form};
use crate::quiet::quiet_end;
use crate::reading::{Turn, pass_separators, read_next};
use crate::source::Given;
use crate::top::{after, text_of};
use sgml_decl_parts::{Construct, Form, before, begins_name, construct_end};
use sgml_entity::{Entities, InputStack, Texts};
use sgml_syntax::Syntax;
use sgml_text::{NameSet, Reason, all_sgml};
use std::alloc::Global;

/// The lexemes of what begins at the top of the stack. `scanned` is how many bytes it has, where its end
/// was found before. An error leaves the stack as it was.
pub(crate) fn read_construct(
    alloc: Global,
    construct: Construct,
    syntax: &Syntax,
    entities: &Entities,
    stack: &mut InputStack,
    texts: &Texts,
    ended: bool,
    scanned: Option<u64>,
) -> Result<Lexemes, LexError>
    requires begins { begins construct entities.now.entities texts.now stack.old.places ≡ true }
    requires scanned { IfSome scanned (IsScanned (asked construct syntax.now entities.now texts.now stack.old ended)) }
    ensures ok { IfOk result (λ ds. Answers (asked construct syntax.now entities.now texts.now stack.old ended) (Ok ds) stack.new) }
    ensures value { IfOk result (λ ds. IsValue construct ds) }
    ensures err { IfErr result (λ e. AnswersError (asked construct syntax.now entities.now texts.now stack.old ended) e stack.new) }
    ensures after { OnOk result (StandsAfter (asked construct syntax.now entities.now texts.now stack.old ended) stack.new) }
    ensures err_stack { OnErr result (stack.new ≡ stack.old) }
{
    let mark = stack.mark();
    match read(
        alloc, construct, syntax, entities, stack, texts, ended, scanned,
    ) {
        Ok(lexemes) => Ok(lexemes),
        Err(error) => {
            stack.rewind(mark);
            Err(error)
        }
    }
}

/// Whether this begins at the top of the stack: a declaration with `<!`, the start of a marked
/// section with `<![`, the end of a document type with `]`. A literal begins before it, with a quote.
pub fn begins(entities: &Entities, stack: &InputStack, texts: &Texts, construct: Construct) -> bool
    ensures { result ≡ begins construct entities.now.entities texts.now stack.now.places }
{
    match stack.top() {
        Some(place) => {
            is_begun(
                construct,
                after(text_of(entities, texts, place.entity), place.at),
            )
        }
        None => false,
    }
}

fn is_begun(construct: Construct, bytes: &[u8]) -> bool
    ensures { result ≡ is_begun construct bytes.now }
{
    match construct {
        Construct::Declaration => begins_declaration(bytes),
        Construct::SectionStart => begins_section(bytes),
        Construct::SubsetEnd => begins_subset_end(bytes),
        Construct::Literal(quote) => quote == b'"' || quote == b'\'',
    }
}

fn begins_declaration(bytes: &[u8]) -> bool
    ensures { result ≡ begins_declaration bytes.now }
{
    match bytes {
        [a, b, ..] => *a == b'<' && *b == b'!',
        _ => false,
    }
}

fn begins_section(bytes: &[u8]) -> bool
    ensures { result ≡ begins_section bytes.now }
{
    match bytes {
        [a, b, c, ..] => *a == b'<' && *b == b'!' && *c == b'[',
        _ => false,
    }
}

fn begins_subset_end(bytes: &[u8]) -> bool
    ensures { result ≡ begins_subset_end bytes.now }
{
    match bytes {
        [a, ..] => *a == b']',
        _ => false,
    }
}

// The same, but an error may leave more texts on the stack.
fn read(
    alloc: Global,
    construct: Construct,
    syntax: &Syntax,
    entities: &Entities,
    stack: &mut InputStack,
    texts: &Texts,
    ended: bool,
    scanned: Option<u64>,
) -> Result<Lexemes, LexError>
    requires begins { begins construct entities.now.entities texts.now stack.old.places ≡ true }
    requires scanned { IfSome scanned (IsScanned (asked construct syntax.now entities.now texts.now stack.old ended)) }
    ensures ok { IfOk result (λ ds. Answers (asked construct syntax.now entities.now texts.now stack.old ended) (Ok ds) stack.new) }
    ensures value { IfOk result (λ ds. IsValue construct ds) }
    ensures err { IfErr result (λ e. AnswersError (asked construct syntax.now entities.now texts.now stack.old ended) e stack.old) }
    ensures after { OnOk result (StandsAfter (asked construct syntax.now entities.now texts.now stack.old ended) stack.new) }
    ensures on_top { OnErr result (OnTop stack.old stack.new) }
{
    let place = match stack.top() {
        Some(place) => place,
        None => return Err(LexError::Memory),
    };
    let text = text_of(entities, texts, place.entity);
    let grows = grows(place.entity, ended);
    let own = match own_scanned(&syntax.names, construct, grows, text, place.at, scanned) {
        Ok(own) => own,
        Err(error) => return Err(error),
    };
    let given = Given {
        construct,
        syntax,
        entities,
        texts,
        own,
        entity: place.entity,
        height: stack.height(),
    };
    read_own(alloc, &given, stack)
}

// Only the document's text grows.
pub(crate) fn grows(entity: u32, ended: bool) -> bool
    ensures { result ≡ ((entity == 0) && not ended) }
{
    entity == 0 && !ended
}

// The text up to the end of what begins at an offset, which was scanned or is looked for.
fn own_scanned<'a>(
    names: &NameSet,
    construct: Construct,
    grows: bool,
    text: &'a [u8],
    at: u64,
    scanned: Option<u64>,
) -> Result<&'a [u8], LexError>
    requires before { before construct ≤ length (drop at text.now) }
    requires scanned { IfSome scanned (EndsAfter names.now construct (drop at text.now)) }
    ensures ok { IfOk result (λ own. own_at names.now construct grows at text.now ≡ Whole own.now) }
    ensures err { IfErr result (λ e. IsNoOwn (own_at names.now construct grows at text.now) e) }
{
    match scanned {
        Some(n) => {
            let _ = text.len();
            Ok(&text[..at as usize + n as usize])
        }
        None => own_text(names, construct, grows, text, at),
    }
}

// The text up to the end of what begins at an offset.
pub(crate) fn own_text<'a>(
    names: &NameSet,
    construct: Construct,
    grows: bool,
    text: &'a [u8],
    at: u64,
) -> Result<&'a [u8], LexError>
    requires { before construct ≤ length (drop at text.now) }
    ensures ok { IfOk result (λ own. own_at names.now construct grows at text.now ≡ Whole own.now) }
    ensures err { IfErr result (λ e. IsNoOwn (own_at names.now construct grows at text.now) e) }
{
    match quiet_end(construct, after(text, at)) {
        Some(n) => Ok(&text[..at as usize + n]),
        None => own_by_walk(names, construct, grows, text, at),
    }
}

// The same, with literals and comments.
fn own_by_walk<'a>(
    names: &NameSet,
    construct: Construct,
    grows: bool,
    text: &'a [u8],
    at: u64,
) -> Result<&'a [u8], LexError>
    requires { before construct ≤ length (drop at text.now) }
    ensures ok { IfOk result (λ own. own_at names.now construct grows at text.now ≡ Whole own.now) }
    ensures err { IfErr result (λ e. IsNoOwn (own_at names.now construct grows at text.now) e) }
{
    let rest = after(text, at);
    match construct_end(names, construct, rest) {
        None => Err(no_end(grows, rest)),
        Some(n) => {
            if all_sgml(&rest[..n]) {
                Ok(&text[..at as usize + n])
            } else {
                Err(LexError::Refused(Reason::NonSgml))
            }
        }
    }
}

fn no_end(grows: bool, rest: &[u8]) -> LexError
    ensures { IsNoOwn (without_end grows rest.now) result }
{
    if grows {
        LexError::NeedMore
    } else if all_sgml(rest) {
        LexError::Refused(Reason::Unclosed)
    } else {
        LexError::Refused(Reason::NonSgml)
    }
}

// What was read where reading begins.
pub(crate) fn first_reading(alloc: Global, given: &Given, stack: &InputStack) -> Progress
    ensures { result ≡ first_reading given.now stack.now.places }
{
    let mut progress = Progress::new(alloc, form_at(given, stack));
    begin(given.construct, stack.height(), &mut progress);
    progress
}

// What is due first. Only a declaration may begin with a name or not.
fn form_at(given: &Given, stack: &InputStack) -> Form
    ensures { result ≡ form_at given.now stack.now.places }
{
    let construct = given.construct;
    match construct {
        Construct::Declaration => {
            let named = begins_name(&given.syntax.names, given.unread(stack));
            first_form(construct, named)
        }
        _ => first_form(construct, false),
    }
}

fn begin(construct: Construct, height: usize, progress: &mut Progress)
    ensures { progress.new ≡ begun construct height progress.old }
{
    match construct {
        Construct::Declaration => {}
        Construct::SectionStart => {}
        Construct::SubsetEnd => {}
        Construct::Literal(quote) => progress.quote(quote, height),
    }
}

fn error_of(fault: Fault) -> LexError
    ensures { result ≡ error_of fault }
{
    match fault {
        Fault::Wanting(entity) => LexError::Wanted(entity),
        Fault::Refusing(reason) => LexError::Refused(reason),
    }
}

// Reads the parts.
fn read_own(alloc: Global, given: &Given, stack: &mut InputStack) -> Result<Lexemes, LexError>
    requires some { 0 < length stack.old.places }
    requires fits { offset_of stack.old.places + before given.now.construct < 2 ^ 64 }
    requires height { given.now.height ≡ length stack.old.places }
    requires quote { EndsWithQuote given.now.construct (unread given.now stack.old.places) }
    ensures ok { IfOk result (λ ds. HasLexemes given.now stack.old ds stack.new) }
    ensures value { IfOk result (λ ds. IsValue given.now.construct ds) }
    ensures after { OnOk result (stack.new.places ≡ moved_to (length given.now.own) stack.old.places) }
    ensures err { IfErr result (IsStop given.now stack.old) }
    ensures on_top { OnErr result (OnTop stack.old stack.new) }
{
    stack.advance(before(given.construct) as u64);
    let mut progress = first_reading(alloc, given, stack);
    'parts: loop {
        let bytes = pass_separators(given, &mut progress, stack);
        match read_next(alloc, given, &mut progress, stack, bytes) {
            Err(_) => return Err(LexError::Memory),
            Ok(Turn::Refused(fault)) => return Err(error_of(fault)),
            Ok(Turn::Ended) => return Ok(progress.finish()),
            Ok(Turn::More) => {}
        }
    }
}
