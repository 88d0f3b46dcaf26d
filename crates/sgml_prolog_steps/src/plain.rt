// What is read over: separators, characters of an ignored section, comments and instructions.
ghost use Rattle.std.specs.Prelude.{◌≡◌, ◌<◌, ◌≤◌, ◌-◌, length, take, IfOk, false};
ghost use Rattle.sgml_declared.specs.theory_spelling.Content.{instruction};
ghost use Rattle.sgml_declared.specs.theory_standing.Prologs.{is_over};
ghost use Rattle.sgml_prolog_steps.specs.Standing.{IsKept};
ghost use Rattle.sgml_prolog_steps.specs.Found.{moved_on, rest_in};
ghost use Rattle.sgml_prolog_steps.specs.Sorts.{sort_in};
ghost use Rattle.sgml_prolog_steps.specs.Steps.{Takes, begun_on};
ghost use Rattle.sgml_prolog_steps.specs.declared.sort.Sort.TheVariants as sort;

use crate::kept::Kept;
use crate::stage::begun;
use crate::stepping::{Stop, Turn};
use sgml_decl_lexemes::unread;
use sgml_entity::Texts;
use sgml_scan::Token;
use sgml_text::{Memory, Text};
use std::alloc::Global;

/// Reads over so many bytes of the text at the top.
pub fn read_over(kept: &mut Kept, texts: &Texts, n: u64)
    requires stacked { 0 < length kept.old.stack.places }
    requires within { n ≤ length (rest_in kept.old texts.now) }
    ensures { kept.new ≡ moved_on n kept.old }
{
    let rest = unread(kept.dtd.entities(), texts, &kept.stack);
    let _ = rest.len();
    kept.stack.advance(n);
}

/// Reads over so many bytes that aren't separators.
pub(crate) fn begin_over(kept: &mut Kept, texts: &Texts, n: u64)
    requires stacked { 0 < length kept.old.stack.places }
    requires within { n ≤ length (rest_in kept.old texts.now) }
    ensures { kept.new ≡ begun_on n kept.old }
{
    read_over(kept, texts, n);
    kept.stage = begun(kept.stage);
}

/// Separators, each of which is a piece.
pub fn take_separators(kept: &mut Kept, texts: &Texts, token: Token) -> Result<Turn, Stop>
    requires kept { IsKept kept.old }
    requires going_on { is_over kept.old ≡ false }
    requires within { token.length ≤ length (rest_in kept.old texts.now) }
    requires sort { sort_in kept.old token.kind ≡ sort.Separators }
    ensures { Takes texts.now token kept.old kept.new result }
{
    read_over(kept, texts, token.length);
    Ok(Turn::Silent)
}

/// Characters of an ignored section, each of which is a piece.
pub fn take_skipped(kept: &mut Kept, texts: &Texts, token: Token) -> Result<Turn, Stop>
    requires kept { IsKept kept.old }
    requires going_on { is_over kept.old ≡ false }
    requires within { token.length ≤ length (rest_in kept.old texts.now) }
    requires sort { sort_in kept.old token.kind ≡ sort.Skipped }
    ensures { Takes texts.now token kept.old kept.new result }
{
    read_over(kept, texts, token.length);
    Ok(Turn::Silent)
}

/// A comment declaration.
pub fn take_comment(kept: &mut Kept, texts: &Texts, token: Token) -> Result<Turn, Stop>
    requires kept { IsKept kept.old }
    requires going_on { is_over kept.old ≡ false }
    requires within { token.length ≤ length (rest_in kept.old texts.now) }
    requires sort { sort_in kept.old token.kind ≡ sort.Comment }
    ensures { Takes texts.now token kept.old kept.new result }
{
    begin_over(kept, texts, token.length);
    Ok(Turn::Silent)
}

/// A processing instruction.
pub fn take_instruction(
    alloc: Global,
    kept: &mut Kept,
    texts: &Texts,
    token: Token,
) -> Result<Turn, Stop>
    requires kept { IsKept kept.old }
    requires going_on { is_over kept.old ≡ false }
    requires within { token.length ≤ length (rest_in kept.old texts.now) }
    requires sort { sort_in kept.old token.kind ≡ sort.Instruction }
    ensures { Takes texts.now token kept.old kept.new result }
{
    let text = match own_text(alloc, kept, texts, token.length) {
        Ok(text) => text,
        Err(_) => return Err(Stop::Memory),
    };
    begin_over(kept, texts, token.length);
    Ok(Turn::Instruction { text, entity: None })
}

/// The text of the instruction of so many bytes.
pub fn own_text(alloc: Global, kept: &Kept, texts: &Texts, n: u64) -> Result<Text, Memory>
    requires stacked { 0 < length kept.now.stack.places }
    requires within { n ≤ length (rest_in kept.now texts.now) }
    ensures { IfOk result (λ text. text ≡ instruction (take n (rest_in kept.now texts.now))) }
{
    let rest = unread(kept.dtd.entities(), texts, &kept.stack);
    let own = instruction(&rest[..n as usize]);
    Ok(Text::of(own.to_vec(alloc)?))
}

// What stands between `<?` and `>`.
fn instruction(own: &[u8]) -> &[u8]
    ensures { result.now ≡ instruction own.now }
{
    if own.len() < 3 {
        &[]
    } else {
        &own[2..own.len() - 1]
    }
}
