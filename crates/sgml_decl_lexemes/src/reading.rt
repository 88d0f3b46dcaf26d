// One part more of a declaration, or of another construct.
ghost use Rattle.std.specs.Prelude.{◌≡◌, ◌+◌, ◌<◌, ◌≤◌, ◌^◌, ◌-◌, ◌==◌, ◌&&◌, ◌∷◌, [], length, take, drop, IfOk, IfErr, OnErr, true};
ghost use Rattle.sgml_decl_parts.specs.Forms.{after_sign as due_after_sign, is_grpc};
ghost use Rattle.sgml_decl_parts.specs.declared.part.Part.TheVariants as p;
ghost use Rattle.sgml_decl_parts.specs.sgml_delim.declared.delim.Delim.TheVariants.{Dso};
ghost use Rattle.sgml_decl_parts.specs.Parts.{size_of, Fits};
ghost use Rattle.sgml_decl_parts.specs.Forms.{may_refer};
ghost use Rattle.sgml_decl_lexemes.specs.Readings.{state_of, Goes, reached_from, Takes, Steps, judged_form, judged_end, judged_dso, judged_sign, judged_quote, is_literal, judged_end_quote, first_due, kept, is_name_length, first_reason, ranked, ranked_reason, is_dso, StandsWithin, judged_reached, judged_refer, is_last, judged, fault_of, next_part, closes, advanced, past_separators};
ghost use Rattle.sgml_decl_lexemes.specs.Sources.{unread};
ghost use Rattle.sgml_decl_lexemes.specs.declared.fault.Reached.TheVariants.{PutsText, PutsData};
ghost use Rattle.sgml_decl_lexemes.specs.declared.reading.Turn.TheVariants.{Refused};

use crate::fault::{Fault, Reached};
use crate::lengths::{Due, has_long_literal, has_long_name};
use crate::lexeme::Lexeme;
use crate::progress::{Progress, first_form};
use crate::source::Given;
use crate::top::after;
use sgml_decl_parts::delim::Delim;
use sgml_decl_parts::{
    Construct, Form, LiteralKind, Part, PartFault, after_name, after_reserved, after_sign,
    after_token, is_complete, literal_kind, may_refer, read_part,
};
use sgml_entity::InputStack;
use sgml_text::{Memory, Name, Reason, Text, Unit};
use std::alloc::Global;

/// What reading one part more came to.
#[derive(Clone, Copy)]
pub(crate) enum Turn {
    /// It was read, and more is to come.
    More,
    /// It was read, and ends what is read.
    Ended,
    /// It isn't read.
    Refused(Fault),
}

/// What is kept against what was read, until its end or a reference that can't be replaced.
#[derive(Clone, Copy)]
pub(crate) struct KeptFaults {
    /// A reference names no character (9.5).
    pub(crate) no_char: bool,
    /// A name or token passes NAMELEN.
    pub(crate) long_name: bool,
    /// A literal passes LITLEN.
    pub(crate) long_literal: bool,
}

#[inline(always)]
fn judge_form(form: Form, part: Part) -> Result<Part, Fault>
    ensures value { result ≡ judged_form form part }
    ensures same { IfOk result (λ q. q ≡ part) }
{
    match form {
        Form::Broken => Err(Fault::Refusing(Reason::DeclarationSyntax)),
        Form::LeftOut(reason) => Err(Fault::Refusing(reason)),
        _ => Ok(part),
    }
}

#[inline(always)]
fn judge_end(form: Form, no_char: bool, part: Part) -> Result<Part, Fault>
    ensures value { result ≡ judged_end form no_char part }
    ensures same { IfOk result (λ q. q ≡ part) }
{
    if !is_complete(form) {
        return Err(Fault::Refusing(Reason::DeclarationSyntax));
    }
    if no_char {
        return Err(Fault::Refusing(Reason::CharNumber));
    }
    Ok(part)
}

#[inline(always)]
fn judge_dso(last: bool, form: Form, no_char: bool) -> Result<Part, Fault>
    ensures value { result ≡ judged_dso last form no_char }
    ensures same { IfOk result (λ q. q ≡ p.Sign Dso) }
{
    if last {
        judge_end(form, no_char, Part::Sign(Delim::Dso))
    } else {
        Err(Fault::Refusing(Reason::DeclarationSyntax))
    }
}

#[inline(always)]
fn judge_sign(last: bool, progress: &Progress, form: Form, sign: Delim) -> Result<Part, Fault>
    requires { form ≡ due_after_sign progress.now.form sign }
    ensures value { result ≡ judged_sign last progress.now sign }
    ensures same { IfOk result (λ q. q ≡ p.Sign sign) }
{
    match sign {
        Delim::Dso => judge_dso(last, form, progress.no_char()),
        _ => judge_form(form, Part::Sign(sign)),
    }
}

#[inline(always)]
fn judge_quote(kind: LiteralKind, quote: u8) -> Result<Part, Fault>
    ensures value { result ≡ judged_quote kind quote }
    ensures same { IfOk result (λ q. q ≡ p.Quote quote) }
{
    match kind {
        LiteralKind::NoLiteral => Err(Fault::Refusing(Reason::DeclarationSyntax)),
        _ => Ok(Part::Quote(quote)),
    }
}

#[inline(always)]
pub(crate) fn is_literal(construct: Construct) -> bool
    ensures { result ≡ is_literal construct }
{
    match construct {
        Construct::Literal(_) => true,
        _ => false,
    }
}

#[inline(always)]
fn judge_end_quote(alone: bool, no_char: bool) -> Result<Part, Fault>
    ensures value { result ≡ judged_end_quote alone no_char }
    ensures same { IfOk result (λ q. q ≡ p.EndQuote) }
{
    if alone && no_char {
        return Err(Fault::Refusing(Reason::CharNumber));
    }
    Ok(Part::EndQuote)
}

fn first_due(construct: Construct) -> Due
    ensures { result ≡ first_due construct }
{
    Due {
        form: first_form(construct, true),
        cdata: false,
    }
}

fn kept(alloc: Global, given: &Given, progress: &Progress) -> Result<KeptFaults, Memory>
    ensures { IfOk result (λ k. k ≡ kept given.now progress.now) }
{
    let first = first_due(given.construct);
    let lexemes = progress.lexemes();
    let long_name = has_long_name(alloc, given.syntax, first, lexemes)?;
    let long_literal = has_long_literal(alloc, given.syntax, first, lexemes)?;
    Ok(KeptFaults {
        no_char: progress.no_char(),
        long_name,
        long_literal,
    })
}

fn is_name_length(reason: Reason) -> bool
    ensures { result ≡ is_name_length reason }
{
    match reason {
        Reason::NameLength => true,
        _ => false,
    }
}

fn first_reason(kept: KeptFaults, reason: Reason) -> Reason
    ensures { result ≡ first_reason kept reason }
{
    if kept.no_char {
        Reason::CharNumber
    } else if kept.long_name || is_name_length(reason) {
        Reason::NameLength
    } else if kept.long_literal {
        Reason::LiteralLimit
    } else {
        reason
    }
}

fn ranked_reason(kept: KeptFaults, reason: Reason) -> Reason
    ensures { result ≡ ranked_reason kept reason }
{
    match reason {
        Reason::NonSgml => Reason::NonSgml,
        _ => first_reason(kept, reason),
    }
}

fn ranked(alloc: Global, given: &Given, progress: &Progress, fault: Fault) -> Result<Fault, Memory>
    ensures { IfOk result (λ f. f ≡ ranked (kept given.now progress.now) fault) }
{
    match fault {
        Fault::Wanting(entity) => Ok(Fault::Wanting(entity)),
        Fault::Refusing(reason) => {
            let kept = kept(alloc, given, progress)?;
            Ok(Fault::Refusing(ranked_reason(kept, reason)))
        }
    }
}

#[inline(always)]
fn is_last(given: &Given, stack: &InputStack, bytes: &[u8]) -> bool
    ensures { result ≡ is_last given.now bytes.now stack.now.places }
{
    stack.height() == given.height && bytes.len() == 1
}

// The name after a delimiter of one byte.
#[inline(always)]
fn named(bytes: &[u8], n: usize) -> &[u8]
    requires { 1 + n ≤ length bytes.now }
    ensures { result.now ≡ take n (drop 1 bytes.now) }
{
    let rest = after(bytes, 1);
    &rest[..n]
}

#[inline(always)]
pub(crate) fn is_dso(sign: Delim) -> bool
    ensures { result ≡ is_dso sign }
{
    match sign {
        Delim::Dso => true,
        _ => false,
    }
}

#[inline(always)]
fn is_grpc(sign: Delim) -> bool
    ensures { result ≡ is_grpc sign }
{
    match sign {
        Delim::Grpc => true,
        _ => false,
    }
}

#[inline(always)]
fn take_name(
    alloc: Global,
    given: &Given,
    progress: &mut Progress,
    stack: &mut InputStack,
    bytes: &[u8],
    n: usize,
) -> Result<Turn, Memory>
    requires some { 0 < n }
    requires within { n ≤ length bytes.now }
    requires room { StandsWithin stack.old.places bytes.now }
    ensures step { IfOk result (Takes given.now bytes.now (p.Name n) progress.old stack.old progress.new stack.new) }
    ensures memory { OnErr result (stack.new ≡ stack.old) }
{
    let name = &bytes[..n];
    let form = after_name(progress.form(), name);
    if let Err(fault) = judge_form(form, Part::Name(n)) {
        return Ok(Turn::Refused(fault));
    }
    let name = Name::copied(alloc, name)?;
    progress.add(form, false, Lexeme::Name(name))?;
    stack.advance(n as u64);
    Ok(Turn::More)
}

#[inline(always)]
fn take_token(
    alloc: Global,
    given: &Given,
    progress: &mut Progress,
    stack: &mut InputStack,
    bytes: &[u8],
    n: usize,
) -> Result<Turn, Memory>
    requires within { n ≤ length bytes.now }
    requires room { StandsWithin stack.old.places bytes.now }
    ensures step { IfOk result (Takes given.now bytes.now (p.Token n) progress.old stack.old progress.new stack.new) }
    ensures memory { OnErr result (stack.new ≡ stack.old) }
{
    let form = after_token(progress.form());
    if let Err(fault) = judge_form(form, Part::Token(n)) {
        return Ok(Turn::Refused(fault));
    }
    let token = Text::copied(alloc, &bytes[..n])?;
    progress.add(form, false, Lexeme::Token(token))?;
    stack.advance(n as u64);
    Ok(Turn::More)
}

#[inline(always)]
fn take_reserved(
    alloc: Global,
    given: &Given,
    progress: &mut Progress,
    stack: &mut InputStack,
    bytes: &[u8],
    n: usize,
) -> Result<Turn, Memory>
    requires some { 0 < n }
    requires within { 1 + n ≤ length bytes.now }
    requires room { StandsWithin stack.old.places bytes.now }
    ensures step { IfOk result (Takes given.now bytes.now (p.Reserved n) progress.old stack.old progress.new stack.new) }
    ensures memory { OnErr result (stack.new ≡ stack.old) }
{
    let name = named(bytes, n);
    let form = after_reserved(progress.form(), name);
    if let Err(fault) = judge_form(form, Part::Reserved(n)) {
        return Ok(Turn::Refused(fault));
    }
    let name = Name::copied(alloc, name)?;
    progress.add(form, false, Lexeme::Reserved(name))?;
    stack.advance(1 + n as u64);
    Ok(Turn::More)
}

#[inline(always)]
fn take_sign(
    given: &Given,
    progress: &mut Progress,
    stack: &mut InputStack,
    bytes: &[u8],
    sign: Delim,
) -> Result<Turn, Memory>
    requires within { 1 ≤ length bytes.now }
    requires room { StandsWithin stack.old.places bytes.now }
    ensures step { IfOk result (Takes given.now bytes.now (p.Sign sign) progress.old stack.old progress.new stack.new) }
    ensures memory { OnErr result (stack.new ≡ stack.old) }
{
    let last = is_last(given, stack, bytes);
    let form = after_sign(progress.form(), sign);
    if let Err(fault) = judge_sign(last, progress, form, sign) {
        return Ok(Turn::Refused(fault));
    }
    progress.add(form, is_grpc(sign), Lexeme::Sign(sign))?;
    stack.advance(1);
    if is_dso(sign) {
        return Ok(Turn::Ended);
    }
    Ok(Turn::More)
}

#[inline(always)]
fn take_quote(
    given: &Given,
    progress: &mut Progress,
    stack: &mut InputStack,
    bytes: &[u8],
    quote: u8,
) -> Result<Turn, Memory>
    requires within { 1 ≤ length bytes.now }
    requires room { StandsWithin stack.old.places bytes.now }
    ensures step { IfOk result (Takes given.now bytes.now (p.Quote quote) progress.old stack.old progress.new stack.new) }
    ensures memory { OnErr result (stack.new ≡ stack.old) }
{
    if let Err(fault) = judge_quote(literal_kind(progress.form()), quote) {
        return Ok(Turn::Refused(fault));
    }
    progress.quote(quote, stack.height());
    stack.advance(1);
    Ok(Turn::More)
}

#[inline(always)]
fn take_end_quote(
    given: &Given,
    progress: &mut Progress,
    stack: &mut InputStack,
    bytes: &[u8],
) -> Result<Turn, Memory>
    requires within { 1 ≤ length bytes.now }
    requires room { StandsWithin stack.old.places bytes.now }
    ensures step { IfOk result (Takes given.now bytes.now p.EndQuote progress.old stack.old progress.new stack.new) }
    ensures memory { OnErr result (stack.new ≡ stack.old) }
{
    let alone = is_literal(given.construct);
    if let Err(fault) = judge_end_quote(alone, progress.no_char()) {
        return Ok(Turn::Refused(fault));
    }
    progress.unquote()?;
    stack.advance(1);
    if alone {
        return Ok(Turn::Ended);
    }
    Ok(Turn::More)
}

#[inline(always)]
fn take_data(
    given: &Given,
    progress: &mut Progress,
    stack: &mut InputStack,
    bytes: &[u8],
    n: usize,
) -> Result<Turn, Memory>
    requires within { n ≤ length bytes.now }
    requires room { StandsWithin stack.old.places bytes.now }
    ensures step { IfOk result (Takes given.now bytes.now (p.Data n) progress.old stack.old progress.new stack.new) }
    ensures memory { OnErr result (stack.new ≡ stack.old) }
{
    progress.data(&bytes[..n])?;
    stack.advance(n as u64);
    Ok(Turn::More)
}

#[inline(never)]
fn take_char(
    given: &Given,
    progress: &mut Progress,
    stack: &mut InputStack,
    bytes: &[u8],
    n: usize,
    unit: Unit,
) -> Result<Turn, Memory>
    requires within { n ≤ length bytes.now }
    requires room { StandsWithin stack.old.places bytes.now }
    ensures step { IfOk result (Takes given.now bytes.now (p.Char n unit) progress.old stack.old progress.new stack.new) }
    ensures memory { OnErr result (stack.new ≡ stack.old) }
{
    progress.character(unit)?;
    stack.advance(n as u64);
    Ok(Turn::More)
}

#[inline(always)]
fn take_closing(
    given: &Given,
    progress: &mut Progress,
    stack: &mut InputStack,
    bytes: &[u8],
) -> Result<Turn, Memory>
    requires within { 1 ≤ length bytes.now }
    requires room { StandsWithin stack.old.places bytes.now }
    ensures step { IfOk result (Takes given.now bytes.now p.Closing progress.old stack.old progress.new stack.new) }
    ensures memory { OnErr result (stack.new ≡ stack.old) }
{
    if let Err(fault) = judge_end(progress.form(), progress.no_char(), Part::Closing) {
        return Ok(Turn::Refused(fault));
    }
    progress.pass();
    stack.advance(1);
    Ok(Turn::Ended)
}

// A reference that can't be replaced.
#[inline(never)]
fn refuse(alloc: Global, given: &Given, progress: &Progress, fault: Fault) -> Result<Turn, Memory>
    ensures { IfOk result (λ r. r ≡ Refused (ranked (kept given.now progress.now) fault)) }
{
    Ok(Turn::Refused(ranked(alloc, given, progress, fault)?))
}

// The text of a CDATA entity stands for a reference.
#[inline(never)]
fn put_text(
    given: &Given,
    progress: &mut Progress,
    stack: &mut InputStack,
    bytes: &[u8],
    n: usize,
    size: usize,
    entity: u32,
) -> Result<Turn, Memory>
    requires reached { PutsText entity ≡ reached_from given.now bytes.now (state_of progress.old stack.old) n }
    requires may { may_refer progress.old.form ≡ true }
    requires within { size ≤ length bytes.now }
    requires room { StandsWithin stack.old.places bytes.now }
    ensures step { IfOk result (Takes given.now bytes.now (p.Refer n size) progress.old stack.old progress.new stack.new) }
    ensures memory { OnErr result (stack.new ≡ stack.old) }
{
    progress.data(given.cdata_text(entity))?;
    stack.advance(size as u64);
    Ok(Turn::More)
}

// An SDATA entity stands for a reference.
#[inline(never)]
fn put_data(
    given: &Given,
    progress: &mut Progress,
    stack: &mut InputStack,
    bytes: &[u8],
    n: usize,
    size: usize,
    entity: u32,
) -> Result<Turn, Memory>
    requires reached { PutsData entity ≡ reached_from given.now bytes.now (state_of progress.old stack.old) n }
    requires may { may_refer progress.old.form ≡ true }
    requires within { size ≤ length bytes.now }
    requires room { StandsWithin stack.old.places bytes.now }
    ensures step { IfOk result (Takes given.now bytes.now (p.Refer n size) progress.old stack.old progress.new stack.new) }
    ensures memory { OnErr result (stack.new ≡ stack.old) }
{
    progress.add_unit(Unit::Sdata(entity))?;
    stack.advance(size as u64);
    Ok(Turn::More)
}

#[inline(always)]
fn open_text(
    alloc: Global,
    given: &Given,
    progress: &mut Progress,
    stack: &mut InputStack,
    bytes: &[u8],
    n: usize,
    size: usize,
    reached: Reached,
) -> Result<Turn, Memory>
    requires reached { reached ≡ reached_from given.now bytes.now (state_of progress.old stack.old) n }
    requires may { may_refer progress.old.form ≡ true }
    requires within { size ≤ length bytes.now }
    requires room { StandsWithin stack.old.places bytes.now }
    ensures step { IfOk result (Takes given.now bytes.now (p.Refer n size) progress.old stack.old progress.new stack.new) }
    ensures memory { OnErr result (stack.new ≡ stack.old) }
{
    match reached {
        Reached::Fails(fault) => refuse(alloc, given, progress, fault),
        Reached::Opens(entity, length) => {
            progress.pass();
            stack.advance(size as u64);
            match stack.push(entity, length) {
                Ok(()) => Ok(Turn::More),
                Err(_) => Err(Memory),
            }
        }
        Reached::PutsText(entity) => put_text(given, progress, stack, bytes, n, size, entity),
        Reached::PutsData(entity) => put_data(given, progress, stack, bytes, n, size, entity),
    }
}

#[inline(always)]
fn take_reference(
    alloc: Global,
    given: &Given,
    progress: &mut Progress,
    stack: &mut InputStack,
    bytes: &[u8],
    n: usize,
    size: usize,
) -> Result<Turn, Memory>
    requires name { 0 < n }
    requires name_within { n < size }
    requires within { size ≤ length bytes.now }
    requires room { StandsWithin stack.old.places bytes.now }
    ensures step { IfOk result (Takes given.now bytes.now (p.Refer n size) progress.old stack.old progress.new stack.new) }
    ensures memory { OnErr result (stack.new ≡ stack.old) }
{
    if !may_refer(progress.form()) {
        return Ok(Turn::Refused(Fault::Refusing(Reason::DeclarationSyntax)));
    }
    let reached = given.reached(alloc, stack, progress.space(), named(bytes, n))?;
    open_text(alloc, given, progress, stack, bytes, n, size, reached)
}

#[inline(always)]
fn take_part(
    alloc: Global,
    given: &Given,
    progress: &mut Progress,
    stack: &mut InputStack,
    bytes: &[u8],
    part: Part,
) -> Result<Turn, Memory>
    requires fits { Fits (length stack.old.places == given.now.height) bytes.now part }
    requires within { size_of part ≤ length bytes.now }
    requires room { StandsWithin stack.old.places bytes.now }
    ensures step { IfOk result (Takes given.now bytes.now part progress.old stack.old progress.new stack.new) }
    ensures memory { OnErr result (stack.new ≡ stack.old) }
{
    match part {
        Part::Gap(n) => {
            progress.pass();
            stack.advance(n as u64);
            Ok(Turn::More)
        }
        Part::Name(n) => take_name(alloc, given, progress, stack, bytes, n),
        Part::Token(n) => take_token(alloc, given, progress, stack, bytes, n),
        Part::Reserved(n) => take_reserved(alloc, given, progress, stack, bytes, n),
        Part::Sign(sign) => take_sign(given, progress, stack, bytes, sign),
        Part::Quote(quote) => take_quote(given, progress, stack, bytes, quote),
        Part::EndQuote => take_end_quote(given, progress, stack, bytes),
        Part::Data(n) => take_data(given, progress, stack, bytes, n),
        Part::Char(n, unit) => take_char(given, progress, stack, bytes, n, unit),
        Part::NoChar(n) => {
            progress.refuse_character();
            stack.advance(n as u64);
            Ok(Turn::More)
        }
        Part::Refer(n, size) => take_reference(alloc, given, progress, stack, bytes, n, size),
        Part::TextEnd => {
            progress.pass();
            stack.pop();
            Ok(Turn::More)
        }
        Part::Closing => take_closing(given, progress, stack, bytes),
    }
}

#[inline(always)]
fn fault_of(fault: PartFault) -> Fault
    ensures { result ≡ fault_of fault }
{
    match fault {
        PartFault::Unclosed => Fault::Refusing(Reason::Unclosed),
        PartFault::Syntax => Fault::Refusing(Reason::DeclarationSyntax),
    }
}

/// Passes the separators that stand next, outside literals. What isn't read then.
#[inline(always)]
pub(crate) fn pass_separators<'a>(
    given: &Given<'a>,
    progress: &mut Progress,
    stack: &mut InputStack,
) -> &'a [u8]
    requires { 0 < length stack.old.places }
    ensures passed { state_of progress.new stack.new ≡ past_separators given.now (state_of progress.old stack.old) }
    ensures value { result.now ≡ unread given.now stack.new.places }
    ensures room { StandsWithin stack.new.places result.now }
{
    let bytes = given.unread(stack);
    let n = progress.gap(bytes);
    if n == 0 {
        return bytes;
    }
    progress.pass();
    stack.advance(n as u64);
    after(bytes, n as u64)
}

/// Reads one part more, which begins what isn't read.
#[inline(always)]
pub(crate) fn read_next(
    alloc: Global,
    given: &Given,
    progress: &mut Progress,
    stack: &mut InputStack,
    bytes: &[u8],
) -> Result<Turn, Memory>
    requires unread { bytes.now ≡ unread given.now stack.old.places }
    requires room { StandsWithin stack.old.places bytes.now }
    ensures step { IfOk result (λ r. Steps given.now (state_of progress.old stack.old) r (state_of progress.new stack.new)) }
    ensures memory { OnErr result (stack.new ≡ stack.old) }
{
    let here = progress.here(given.height, stack.height());
    match read_part(&given.syntax.names, given.syntax.general_fold, here, bytes) {
        Err(fault) => Ok(Turn::Refused(fault_of(fault))),
        Ok(part) => take_part(alloc, given, progress, stack, bytes, part),
    }
}
