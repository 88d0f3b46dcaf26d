// The values that a tag specifies, filled in as they are read.
ghost use Rattle.std.specs.Prelude.{◌≡◌, ◌<◌, ◌≤◌, ◌+◌, ◌-◌, ◌^◌, [], slice_index_or, true, None, Some, length, nat_lt, position, take, drop, false, IfOk, IfErr, IfSome, IsTrue, OnOk};
ghost use Rattle.std.specs.List.{list_all};
ghost use Rattle.sgml_text.specs.Characters.{is_quote};
ghost use Rattle.sgml_text.specs.Units.{characters};
ghost use Rattle.sgml_entity.specs.Stack.{offset_of};
ghost use Rattle.sgml_attr.specs.declared.definition.Declared.{Declared};
ghost use Rattle.sgml_attr.specs.Literal.{interpreted};
ghost use Rattle.sgml_attr.specs.Matching.{is_named, attribute_by};
ghost use Rattle.sgml_markup.specs.declared.kinds.PartKind.TheVariants as kind;
ghost use Rattle.sgml_markup.specs.Forms.{unclosed};
ghost use Rattle.sgml_markup.specs.Tags.{bytes_of};
ghost use Rattle.sgml_markup.specs.Walks.{part_at, parts_left, StandsIn};
ghost use Rattle.sgml_starts.specs.Read.{StandsAlike};
ghost use Rattle.sgml_starts.specs.Specified.{rest};
ghost use Rattle.sgml_starts.specs.Values.{unvalued};
ghost use Rattle.sgml_starts.specs.SoFar.{AreSoFar, IsFilledOn, ready_at, value_at, FillsValue, FillsOn, BeginsFilled};
ghost use Rattle.sgml_starts.specs.Starts.{IsUnvalued};
ghost use Rattle.sgml_decl_lexemes.specs.Declares.{is_plain};
ghost use Rattle.sgml_starts.specs.Currents.{is_current};
ghost use Rattle.sgml_starts.specs.Filled.{AreFilled};
ghost use Rattle.sgml_starts.specs.Taken.{input_in, IsPlainLiteral, TakesNamed, name_in, spec_in, IsPut, Takes, Refuses, TakesAt, RefusesAt, TakesLiteral, RefusesLiteral, AreTaken, AreAllFilled, tag_in};

use crate::error::StartError;
use crate::filling::{Filled, Start, either, is_conref, is_current, note_current};
use crate::judging::{calm_value, judged_given, judged_spelled};
use crate::reading::literal_at;
use sgml_attr::{AttrValue, Definition, are_apart, attribute_named, attribute_with_member};
use sgml_entity::{InputStack, Texts};
use sgml_markup::{
    Part, PartKind, TagState, TagWalk, bare_end, behind_separators, literal_end, name_end,
    next_part, next_specification, specifications_begin, tag_walk, unclosed, walk_at,
};
use sgml_text::{Memory, Reason, Unit, Units, is_quote, is_sgml_character};

// Puts a value in the place of the attribute of a number.
#[inline(always)]
fn put(
    filled: &mut Filled,
    number: usize,
    definition: &Definition,
    value: AttrValue,
) -> Result<(), Memory>
    requires values { number < length filled.old.values.items }
    requires flags { number < length filled.old.specified.items }
    ensures { OnOk result (IsPut definition.now number value filled.old filled.new) }
{
    note_current(&mut filled.current, definition, number)?;
    filled.values[number] = value;
    filled.specified.note(number);
    filled.conref = either(filled.conref, is_conref(&definition.default));
    Ok(())
}

// The same of one whose default isn't #CURRENT.
#[inline(always)]
fn put_calm(filled: &mut Filled, number: usize, definition: &Definition, value: AttrValue)
    requires values { number < length filled.old.values.items }
    requires flags { number < length filled.old.specified.items }
    requires free { is_current definition.now.default ≡ false }
    ensures { IsPut definition.now number value filled.old filled.new }
{
    filled.values[number] = value;
    filled.specified.note(number);
    filled.conref = either(filled.conref, is_conref(&definition.default));
}

// Whether these are characters of which none is this quote, begins a reference or is a separator other than SPACE.
// Letters are told first.
#[inline(always)]
fn are_calm(quote: u8, bytes: &[u8]) -> bool
    ensures plain { IsTrue result → list_all (is_plain quote) bytes.now ≡ true }
    ensures behind { IsTrue result → list_all (nat_lt 31) bytes.now ≡ true }
{
    for b in bytes {
        if !is_calm(quote, *b) {
            return false;
        }
    }
    true
}

#[inline(always)]
fn is_calm(quote: u8, b: u8) -> bool
    ensures plain { IsTrue result → is_plain quote b ≡ true }
    ensures behind { IsTrue result → nat_lt 31 b ≡ true }
{
    b > 31 && b != quote && b != b'&' && is_sgml_character(b)
}

// Whether none of these is a separator other than SPACE.
#[inline(always)]
fn are_behind(bytes: &[u8]) -> bool
    ensures { result ≡ list_all (nat_lt 31) bytes.now }
{
    for b in bytes {
        if *b <= 31 {
            return false;
        }
    }
    true
}

// Whether a literal that stands from one place of the tag to another ends in its quote, and is of such characters.
#[inline(always)]
fn is_calm_literal(tag: &[u8], from: usize, to: usize) -> bool
    requires { (from ≤ to) × (to ≤ length tag.now) }
    ensures calm { IsTrue result → IsPlainLiteral tag.now (part_at kind.Quoted from to) }
    ensures behind { IsTrue result → list_all (nat_lt 31) (take (to - from) (drop from tag.now)) ≡ true }
{
    if from == 0 || to >= tag.len() {
        return false;
    }
    let quote = tag[from - 1];
    tag[to] == quote && are_calm(quote, &tag[from..to])
}

impl<'a> Start<'a> {
    // Fills in characters for the attribute of a number, among which SPACE is the only separator, where nothing is
    // against them and no current value depends on them; else nothing.
    #[inline(always)]
    fn add_calm_at(&self, filled: &mut Filled, number: usize, bytes: &[u8]) -> bool
        requires number { number < length self.now.definitions }
        requires values { length filled.old.values.items ≡ length self.now.definitions }
        requires flags { length filled.old.specified.items ≡ length self.now.definitions }
        requires behind { list_all (nat_lt 31) bytes.now ≡ true }
        ensures same { result ≡ false → filled.new ≡ filled.old }
        ensures values { length filled.new.values.items ≡ length filled.old.values.items }
        ensures flags { length filled.new.specified.items ≡ length filled.old.specified.items }
        ensures taken { IsTrue result → TakesAt self.now number (characters bytes.now) filled.old filled.new }
    {
        let definitions = self.definitions;
        let definition = &definitions[number];
        if filled.specified.has(number) {
            return false;
        }
        if is_current(&definition.default) {
            return false;
        }
        match calm_value(self.alloc, self.syntax, definition, bytes) {
            Some(value) => {
                put_calm(filled, number, definition, value);
                true
            }
            None => false,
        }
    }

    // The same for the attribute of this name.
    #[inline(never)]
    fn add_calm(&self, filled: &mut Filled, name: &[u8], bytes: &[u8]) -> bool
        requires values { length filled.old.values.items ≡ length self.now.definitions }
        requires flags { length filled.old.specified.items ≡ length self.now.definitions }
        requires behind { list_all (nat_lt 31) bytes.now ≡ true }
        ensures same { result ≡ false → filled.new ≡ filled.old }
        ensures values { length filled.new.values.items ≡ length filled.old.values.items }
        ensures flags { length filled.new.specified.items ≡ length filled.old.specified.items }
        ensures taken { IsTrue result → TakesNamed self.now name.now bytes.now filled.old filled.new }
    {
        match attribute_named(self.syntax, self.definitions, name) {
            Some(number) => self.add_calm_at(filled, number, bytes),
            None => false,
        }
    }

    // Fills in the value without quotes that begins at this place, behind the name in a part of the tag, and tells the
    // place behind it; 0 where another thing stands there, or something may be against it.
    #[inline(always)]
    fn take_calm_bare(
        &self,
        filled: &mut Filled,
        tag: &[u8],
        body: &[u8],
        name: Part,
        at: usize,
    ) -> usize
        requires values { length filled.old.values.items ≡ length self.now.definitions }
        requires flags { length filled.old.specified.items ≡ length self.now.definitions }
        requires body { body.now ≡ unclosed tag.now }
        requires shorter { length body.now ≤ length tag.now }
        requires name { (name.from ≤ name.to) × (name.to ≤ length tag.now) }
        ensures same { result ≡ 0 → filled.new ≡ filled.old }
        ensures values { length filled.new.values.items ≡ length filled.old.values.items }
        ensures flags { length filled.new.specified.items ≡ length filled.old.specified.items }
        ensures on { (0 < result) → at < result }
        ensures within { result ≤ length body.now }
        ensures fills { (0 < result) → FillsValue self.now tag.now name at filled.old result filled.new }
        ensures fewer { (0 < result) → length (ready_at self.now tag.now result) ≤ length (value_at self.now tag.now at) }
    {
        let to = bare_end(self.syntax, body, at);
        if to == 0 {
            return 0;
        }
        let bytes = &tag[at..to];
        if !are_behind(bytes) {
            return 0;
        }
        if !self.add_calm(filled, &tag[name.from..name.to], bytes) {
            return 0;
        }
        behind_separators(body, to)
    }

    // The same of a literal.
    #[inline(always)]
    fn take_calm_literal(
        &self,
        filled: &mut Filled,
        tag: &[u8],
        body: &[u8],
        name: Part,
        at: usize,
    ) -> usize
        requires values { length filled.old.values.items ≡ length self.now.definitions }
        requires flags { length filled.old.specified.items ≡ length self.now.definitions }
        requires body { body.now ≡ unclosed tag.now }
        requires shorter { length body.now ≤ length tag.now }
        requires name { (name.from ≤ name.to) × (name.to ≤ length tag.now) }
        ensures same { result ≡ 0 → filled.new ≡ filled.old }
        ensures values { length filled.new.values.items ≡ length filled.old.values.items }
        ensures flags { length filled.new.specified.items ≡ length filled.old.specified.items }
        ensures on { (0 < result) → at < result }
        ensures within { result ≤ length body.now }
        ensures fills { (0 < result) → FillsValue self.now tag.now name at filled.old result filled.new }
        ensures fewer { (0 < result) → length (ready_at self.now tag.now result) ≤ length (value_at self.now tag.now at) }
    {
        let to = literal_end(body, at);
        if to == 0 {
            return 0;
        }
        if !is_calm_literal(tag, at + 1, to) {
            return 0;
        }
        if !self.add_calm(filled, &tag[name.from..name.to], &tag[at + 1..to]) {
            return 0;
        }
        behind_separators(body, to + 1)
    }

    // The same of the specification that begins at this place.
    #[inline(always)]
    fn take_calm_one(&self, filled: &mut Filled, tag: &[u8], body: &[u8], at: usize) -> usize
        requires values { length filled.old.values.items ≡ length self.now.definitions }
        requires flags { length filled.old.specified.items ≡ length self.now.definitions }
        requires body { body.now ≡ unclosed tag.now }
        requires shorter { length body.now ≤ length tag.now }
        ensures same { result ≡ 0 → filled.new ≡ filled.old }
        ensures values { length filled.new.values.items ≡ length filled.old.values.items }
        ensures flags { length filled.new.specified.items ≡ length filled.old.specified.items }
        ensures on { (0 < result) → at < result }
        ensures within { result ≤ length body.now }
        ensures fills { (0 < result) → FillsOn self.now tag.now at filled.old result filled.new }
        ensures fewer { (0 < result) → length (ready_at self.now tag.now result) ≤ length (ready_at self.now tag.now at) }
    {
        let sign = name_end(self.syntax, body, at);
        if sign == 0 {
            return 0;
        }
        let name = Part {
            kind: PartKind::AttributeName,
            from: at,
            to: sign,
        };
        if sign + 1 < body.len() && is_quote(body[sign + 1]) {
            self.take_calm_literal(filled, tag, body, name, sign + 1)
        } else {
            self.take_calm_bare(filled, tag, body, name, sign + 1)
        }
    }

    // Fills in specifications from this place on, as long as nothing may be against them, and tells the place behind them.
    fn take_calm(&self, filled: &mut Filled, tag: &[u8], from: usize) -> usize
        requires values { length filled.old.values.items ≡ length self.now.definitions }
        requires flags { length filled.old.specified.items ≡ length self.now.definitions }
        requires within { from ≤ length (unclosed tag.now) }
        ensures values { length filled.new.values.items ≡ length filled.old.values.items }
        ensures flags { length filled.new.specified.items ≡ length filled.old.specified.items }
        ensures within { result ≤ length (unclosed tag.now) }
        ensures fills { FillsOn self.now tag.now from filled.old result filled.new }
        ensures fewer { length (ready_at self.now tag.now result) ≤ length (ready_at self.now tag.now from) }
    {
        let body = unclosed(tag);
        let mut at = from;
        'specifications: loop {
            let behind = self.take_calm_one(filled, tag, body, at);
            if behind == 0 {
                return at;
            }
            at = behind;
        }
    }

    // The walk behind the specifications that are filled in so from where it stands.
    fn resume(&self, filled: &mut Filled, tag: &[u8], walk: TagWalk) -> TagWalk
        requires values { length filled.old.values.items ≡ length self.now.definitions }
        requires flags { length filled.old.specified.items ≡ length self.now.definitions }
        requires stands { StandsIn tag.now walk }
        ensures stands { StandsIn tag.now result }
        ensures values { length filled.new.values.items ≡ length filled.old.values.items }
        ensures flags { length filled.new.specified.items ≡ length filled.old.specified.items }
        ensures fills { IsFilledOn self.now tag.now None (parts_left self.now.syntax tag.now walk) filled.old (parts_left self.now.syntax tag.now result) filled.new }
        ensures fewer { length (parts_left self.now.syntax tag.now result) ≤ length (parts_left self.now.syntax tag.now walk) }
    {
        let TagState::Ready = walk.state else {
            return walk;
        };
        if walk.ended || walk.closing || walk.at > unclosed(tag).len() {
            return walk;
        }
        let behind = self.take_calm(filled, tag, walk.at);
        walk_at(tag, behind)
    }

    // A walk over the parts of the tag, behind the specifications that are filled in so.
    #[inline(always)]
    fn begin(&self, filled: &mut Filled, tag: &[u8]) -> TagWalk
        requires values { length filled.old.values.items ≡ length self.now.definitions }
        requires flags { length filled.old.specified.items ≡ length self.now.definitions }
        ensures stands { StandsIn tag.now result }
        ensures values { length filled.new.values.items ≡ length filled.old.values.items }
        ensures flags { length filled.new.specified.items ≡ length filled.old.specified.items }
        ensures begun { BeginsFilled self.now tag.now filled.old filled.new result }
    {
        let from = specifications_begin(self.syntax, tag);
        if from == 0 {
            return tag_walk(tag);
        }
        let behind = self.take_calm(filled, tag, from);
        walk_at(tag, behind)
    }

    // Fills in units that are specified for the attribute of a number.
    fn add_given(&self, filled: &mut Filled, number: usize, units: Units) -> Result<(), StartError>
        requires number { number < length self.now.definitions }
        requires values { length filled.old.values.items ≡ length self.now.definitions }
        requires flags { length filled.old.specified.items ≡ length self.now.definitions }
        ensures ok { OnOk result (TakesAt self.now number units filled.old filled.new) }
        ensures err { IfErr result (RefusesAt self.now number units filled.old) }
    {
        let definitions = self.definitions;
        let definition = &definitions[number];
        let twice = filled.specified.has(number);
        let value = match judged_given(
            self.alloc,
            self.syntax,
            self.entities,
            definition,
            twice,
            units,
        ) {
            Ok(value) => value,
            Err(error) => return Err(error),
        };
        put(filled, number, definition, value)?;
        Ok(())
    }

    // The same of characters without a separator.
    fn add_spelled(
        &self,
        filled: &mut Filled,
        number: usize,
        bytes: &[u8],
    ) -> Result<(), StartError>
        requires number { number < length self.now.definitions }
        requires values { length filled.old.values.items ≡ length self.now.definitions }
        requires flags { length filled.old.specified.items ≡ length self.now.definitions }
        requires apart { list_all (nat_lt 32) bytes.now ≡ true }
        requires same { (declared : Declared) → interpreted declared (characters bytes.now) ≡ characters bytes.now }
        ensures ok { OnOk result (TakesAt self.now number (characters bytes.now) filled.old filled.new) }
        ensures err { IfErr result (RefusesAt self.now number (characters bytes.now) filled.old) }
    {
        let definitions = self.definitions;
        let definition = &definitions[number];
        let twice = filled.specified.has(number);
        let value = match judged_spelled(
            self.alloc,
            self.syntax,
            self.entities,
            definition,
            twice,
            bytes,
        ) {
            Ok(value) => value,
            Err(error) => return Err(error),
        };
        put(filled, number, definition, value)?;
        Ok(())
    }

    // The number of the attribute whose name stands in a part of the tag.
    #[inline(always)]
    fn number_named(&self, tag: &[u8], name: Part) -> Option<usize>
        requires { (name.from ≤ name.to) × (name.to ≤ length tag.now) }
        ensures of { result ≡ position (is_named self.now.syntax.general_fold (bytes_of tag.now name)) self.now.definitions }
        ensures within { IfSome result (λ i. i < length self.now.definitions) }
    {
        attribute_named(self.syntax, self.definitions, &tag[name.from..name.to])
    }

    // The same, where the name may be left out.
    fn number_of(&self, tag: &[u8], name: Option<Part>, units: &[Unit]) -> Option<usize>
        requires { IfSome name (λ p. (p.from ≤ p.to) × (p.to ≤ length tag.now)) }
        ensures of { result ≡ attribute_by self.now.syntax.general_fold self.now.definitions (name_in tag.now name) units.now }
        ensures within { IfSome result (λ i. i < length self.now.definitions) }
    {
        match name {
            Some(part) => self.number_named(tag, part),
            None => attribute_with_member(self.syntax, self.definitions, units),
        }
    }

    // Fills in the specification of these units.
    fn take_units(
        &self,
        filled: &mut Filled,
        tag: &[u8],
        name: Option<Part>,
        units: Units,
    ) -> Result<(), StartError>
        requires values { length filled.old.values.items ≡ length self.now.definitions }
        requires flags { length filled.old.specified.items ≡ length self.now.definitions }
        requires within { IfSome name (λ p. (p.from ≤ p.to) × (p.to ≤ length tag.now)) }
        ensures ok { OnOk result (Takes self.now (spec_in tag.now name units) filled.old filled.new) }
        ensures err { IfErr result (Refuses self.now (spec_in tag.now name units) filled.old) }
    {
        match self.number_of(tag, name, units.items()) {
            Some(number) => match self.add_given(filled, number, units) {
                Ok(()) => Ok(()),
                Err(error) => Err(error),
            },
            None => Err(StartError::Refused(Reason::UnknownAttribute)),
        }
    }

    // Fills in the specification of characters without a separator to a name.
    #[inline(always)]
    fn take_spelled(
        &self,
        filled: &mut Filled,
        tag: &[u8],
        name: Part,
        bytes: &[u8],
    ) -> Result<(), StartError>
        requires values { length filled.old.values.items ≡ length self.now.definitions }
        requires flags { length filled.old.specified.items ≡ length self.now.definitions }
        requires within { (name.from ≤ name.to) × (name.to ≤ length tag.now) }
        requires apart { list_all (nat_lt 32) bytes.now ≡ true }
        requires same { (declared : Declared) → interpreted declared (characters bytes.now) ≡ characters bytes.now }
        ensures ok { OnOk result (Takes self.now (spec_in tag.now (Some name) (characters bytes.now)) filled.old filled.new) }
        ensures err { IfErr result (Refuses self.now (spec_in tag.now (Some name) (characters bytes.now)) filled.old) }
    {
        match self.number_named(tag, name) {
            Some(number) => match self.add_spelled(filled, number, bytes) {
                Ok(()) => Ok(()),
                Err(error) => Err(error),
            },
            None => Err(StartError::Refused(Reason::UnknownAttribute)),
        }
    }

    // Fills in the specification of a value without quotes.
    #[inline(never)]
    fn take_bare(
        &self,
        filled: &mut Filled,
        tag: &[u8],
        name: Option<Part>,
        bytes: &[u8],
    ) -> Result<(), StartError>
        requires values { length filled.old.values.items ≡ length self.now.definitions }
        requires flags { length filled.old.specified.items ≡ length self.now.definitions }
        requires within { IfSome name (λ p. (p.from ≤ p.to) × (p.to ≤ length tag.now)) }
        ensures ok { OnOk result (Takes self.now (spec_in tag.now name (characters bytes.now)) filled.old filled.new) }
        ensures err { IfErr result (Refuses self.now (spec_in tag.now name (characters bytes.now)) filled.old) }
    {
        if let Some(part) = name {
            if are_apart(bytes) {
                return self.take_spelled(filled, tag, part, bytes);
            }
        }
        let units = Units::of_bytes(self.alloc, bytes)?;
        self.take_units(filled, tag, name, units)
    }

    /// Fills in what a tag specifies that stands at this place of the text at the top, part by part, up to the
    /// first specification that is refused.
    #[inline(always)]
    pub(crate) fn take(
        &self,
        filled: &mut Filled,
        texts: &Texts,
        stack: &mut InputStack,
        tag: &[u8],
        at: u64,
    ) -> Result<(), StartError>
        requires nothing { AreFilled self.now [] filled.old }
        requires some { 0 < length stack.old.places }
        requires at { at ≡ offset_of stack.old.places }
        requires fits { at + length tag.now < 2 ^ 64 }
        requires text { tag.now ≡ take (length tag.now) (rest (input_in self.now texts.now stack.old)) }
        ensures ok { OnOk result (AreTaken self.now (tag_in self.now texts.now stack.old tag.now) filled.new stack.new) }
        ensures err { IfErr result (IsUnvalued (unvalued self.now (tag_in self.now texts.now stack.old tag.now))) }
        ensures alike { StandsAlike stack.old stack.new }
    {
        let walk = self.begin(filled, tag);
        if walk.ended {
            return Ok(());
        }
        match self.take_parts(filled, texts, stack, tag, at, walk) {
            Ok(()) => Ok(()),
            Err(error) => Err(error),
        }
    }

    // The same from where the walk stands.
    #[inline(never)]
    fn take_parts(
        &self,
        filled: &mut Filled,
        texts: &Texts,
        stack: &mut InputStack,
        tag: &[u8],
        at: u64,
        from: TagWalk,
    ) -> Result<(), StartError>
        requires some { 0 < length stack.old.places }
        requires at { at ≡ offset_of stack.old.places }
        requires fits { at + length tag.now < 2 ^ 64 }
        requires text { tag.now ≡ take (length tag.now) (rest (input_in self.now texts.now stack.old)) }
        requires values { length filled.old.values.items ≡ length self.now.definitions }
        requires flags { length filled.old.specified.items ≡ length self.now.definitions }
        requires stands { StandsIn tag.now from }
        requires so_far { AreSoFar self.now (input_in self.now texts.now stack.old) tag.now None filled.old stack.old (parts_left self.now.syntax tag.now from) }
        ensures ok { OnOk result (AreTaken self.now (tag_in self.now texts.now stack.old tag.now) filled.new stack.new) }
        ensures err { IfErr result (IsUnvalued (unvalued self.now (tag_in self.now texts.now stack.old tag.now))) }
        ensures alike { StandsAlike stack.old stack.new }
    {
        let mut walk = from;
        let mut name = None;
        'parts: loop {
            if let Some(next) = next_specification(self.syntax, tag, walk) {
                let value = next.value;
                let named = Some(next.name);
                if let PartKind::Bare = value.kind {
                    let bytes = &tag[value.from..value.to];
                    if let Err(error) = self.take_bare(filled, tag, named, bytes) {
                        return Err(error);
                    }
                    walk = self.resume(filled, tag, next.behind);
                    name = None;
                    continue 'parts;
                }
                if let PartKind::Quoted = value.kind {
                    if let Err(error) = self.take_literal(
                        filled, texts, stack, tag, at, named, value,
                    ) {
                        return Err(error);
                    }
                    walk = self.resume(filled, tag, next.behind);
                    name = None;
                    continue 'parts;
                }
            }
            let Some(part) = next_part(self.syntax, tag, &mut walk) else {
                return Ok(());
            };
            match part.kind {
                PartKind::ElementName => name = None,
                PartKind::AttributeName => name = Some(part),
                PartKind::Bare => {
                    let bytes = &tag[part.from..part.to];
                    if let Err(error) = self.take_bare(filled, tag, name, bytes) {
                        return Err(error);
                    }
                    name = None;
                }
                PartKind::Quoted => {
                    if let Err(error) = self.take_literal(
                        filled, texts, stack, tag, at, name, part,
                    ) {
                        return Err(error);
                    }
                    name = None;
                }
            }
        }
    }

    // Fills in the literal that stands in a part of the tag.
    #[inline(never)]
    fn take_literal(
        &self,
        filled: &mut Filled,
        texts: &Texts,
        stack: &mut InputStack,
        tag: &[u8],
        at: u64,
        name: Option<Part>,
        part: Part,
    ) -> Result<(), StartError>
        requires some { 0 < length stack.old.places }
        requires values { length filled.old.values.items ≡ length self.now.definitions }
        requires flags { length filled.old.specified.items ≡ length self.now.definitions }
        requires within { IfSome name (λ p. (p.from ≤ p.to) × (p.to ≤ length tag.now)) }
        requires behind { 0 < part.from }
        requires quote { is_quote (slice_index_or tag.now (part.from - 1) 0) ≡ true }
        requires inside { part.from ≤ length tag.now }
        requires fits { at + length tag.now < 2 ^ 64 }
        ensures ok { OnOk result (TakesLiteral self.now texts.now at tag.now name part filled.old stack.old filled.new stack.new) }
        ensures err { IfErr result (RefusesLiteral self.now texts.now at tag.now name part filled.old stack.old) }
        ensures alike { StandsAlike stack.old stack.new }
    {
        let quote = tag[part.from - 1];
        let begin = at + part.from as u64;
        let units = match literal_at(
            self.alloc,
            self.syntax,
            self.entities,
            texts,
            stack,
            quote,
            begin,
        ) {
            Ok(units) => units,
            Err(error) => return Err(error),
        };
        match self.take_units(filled, tag, name, units) {
            Ok(()) => Ok(()),
            Err(error) => Err(error),
        }
    }

    /// Fills in the values of all attributes of a start whose tag stands at this place of the text at the top.
    #[inline(always)]
    pub(crate) fn take_all(
        &self,
        filled: &mut Filled,
        texts: &Texts,
        stack: &mut InputStack,
        tag: &[u8],
        at: u64,
    ) -> Result<(), StartError>
        requires nothing { AreFilled self.now [] filled.old }
        requires some { 0 < length stack.old.places }
        requires at { at ≡ offset_of stack.old.places }
        requires fits { at + length tag.now < 2 ^ 64 }
        requires text { tag.now ≡ take (length tag.now) (rest (input_in self.now texts.now stack.old)) }
        ensures ok { OnOk result (AreAllFilled self.now (tag_in self.now texts.now stack.old tag.now) filled.new stack.new) }
        ensures err { IfErr result (IsUnvalued (unvalued self.now (tag_in self.now texts.now stack.old tag.now))) }
        ensures alike { StandsAlike stack.old stack.new }
    {
        if let Err(error) = self.take(filled, texts, stack, tag, at) {
            return Err(error);
        }
        match self.fill_up(filled) {
            Ok(()) => Ok(()),
            Err(error) => Err(error),
        }
    }
}
