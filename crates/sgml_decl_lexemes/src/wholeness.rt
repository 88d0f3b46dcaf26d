// Whether the end of a declaration is reached.
ghost use Rattle.std.specs.Prelude.{◌≡◌, ◌+◌, ◌<◌, ◌^◌, length, IfOk, true};
ghost use Rattle.sgml_entity.specs.Stack.{offset_of};
ghost use Rattle.sgml_decl_parts.specs.Ends.{before};
ghost use Rattle.sgml_decl_parts.specs.declared.ends.Construct.TheVariants.{Declaration};
ghost use Rattle.sgml_decl_lexemes.specs.Sources.{unread};
ghost use Rattle.sgml_decl_lexemes.specs.Readings.{closes, state_of, EndsWithQuote, OnTop};
ghost use Rattle.sgml_decl_lexemes.specs.Declares.{begins, asked};
ghost use Rattle.sgml_decl_lexemes.specs.Wholeness.{stands_end, is_whole_in, is_end_reached};

use crate::progress::Progress;
use crate::reader::{first_reading, grows, own_text};
use crate::reading::{Turn, is_dso, is_literal, pass_separators, read_next};
use crate::source::Given;
use crate::top::text_of;
use sgml_decl_parts::{Construct, Part, before, read_part};
use sgml_entity::{Entities, InputStack, Texts};
use sgml_syntax::Syntax;
use sgml_text::Memory;
use std::alloc::Global;

/// Whether the end of the declaration that begins with `<!` at the top of the stack is reached, where
/// its lexemes are read no further: the part that stands there is the closing one, and is refused for
/// what was read before, as a reference to no character (9.5). It isn't reached where another part is
/// refused, or where the declaration isn't all there or has a byte that is no SGML character.
///
/// `ended` is as with `lexemes`. The stack stays as it was.
pub fn reaches_end(
    alloc: Global,
    syntax: &Syntax,
    entities: &Entities,
    stack: &mut InputStack,
    texts: &Texts,
    ended: bool,
) -> Result<bool, Memory>
    requires { begins Declaration entities.now.entities texts.now stack.old.places ≡ true }
    ensures end { IfOk result (λ end. end ≡ is_end_reached (asked Declaration syntax.now entities.now texts.now stack.old ended)) }
    ensures stack { stack.new ≡ stack.old }
{
    let mark = stack.mark();
    let end = read(alloc, syntax, entities, stack, texts, ended);
    stack.rewind(mark);
    end
}

// The same, but more texts may be left on the stack.
fn read(
    alloc: Global,
    syntax: &Syntax,
    entities: &Entities,
    stack: &mut InputStack,
    texts: &Texts,
    ended: bool,
) -> Result<bool, Memory>
    requires { begins Declaration entities.now.entities texts.now stack.old.places ≡ true }
    ensures end { IfOk result (λ end. end ≡ is_end_reached (asked Declaration syntax.now entities.now texts.now stack.old ended)) }
    ensures on_top { OnTop stack.old stack.new }
{
    let place = match stack.top() {
        Some(place) => place,
        None => return Err(Memory),
    };
    let construct = Construct::Declaration;
    let text = text_of(entities, texts, place.entity);
    let grows = grows(place.entity, ended);
    let own = match own_text(&syntax.names, construct, grows, text, place.at) {
        Ok(own) => own,
        Err(_) => return Ok(false),
    };
    let given = Given {
        construct,
        syntax,
        entities,
        texts,
        own,
        entity: place.entity,
        height: stack.height(),
    };
    read_own(alloc, &given, stack)
}

// Reads the parts, and tells of each whether it is the end before it is judged.
fn read_own(alloc: Global, given: &Given, stack: &mut InputStack) -> Result<bool, Memory>
    requires some { 0 < length stack.old.places }
    requires fits { offset_of stack.old.places + before given.now.construct < 2 ^ 64 }
    requires height { given.now.height ≡ length stack.old.places }
    requires quote { EndsWithQuote given.now.construct (unread given.now stack.old.places) }
    ensures end { IfOk result (λ end. end ≡ is_whole_in given.now stack.old) }
    ensures on_top { OnTop stack.old stack.new }
{
    stack.advance(before(given.construct) as u64);
    let mut progress = first_reading(alloc, given, stack);
    'parts: loop {
        let bytes = pass_separators(given, &mut progress, stack);
        let end = stands_end(given, &progress, stack);
        match read_next(alloc, given, &mut progress, stack, bytes) {
            Err(_) => return Err(Memory),
            Ok(Turn::Refused(_)) => return Ok(end),
            Ok(Turn::Ended) => return Ok(true),
            Ok(Turn::More) => {}
        }
    }
}

// Whether the part that stands next is one that ends what is read.
fn stands_end(given: &Given, progress: &Progress, stack: &InputStack) -> bool
    ensures { result ≡ stands_end given.now (state_of progress.now stack.now) }
{
    let bytes = given.unread(stack);
    let here = progress.here(given.height, stack.height());
    match read_part(&given.syntax.names, given.syntax.general_fold, here, bytes) {
        Err(_) => false,
        Ok(part) => closes(given.construct, part),
    }
}

fn closes(construct: Construct, part: Part) -> bool
    ensures { result ≡ closes construct part }
{
    match part {
        Part::Closing => true,
        Part::Sign(sign) => is_dso(sign),
        Part::EndQuote => is_literal(construct),
        _ => false,
    }
}
