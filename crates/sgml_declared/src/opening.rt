// How texts are opened.
ghost use Rattle.std.specs.Prelude.{◌≡◌, ◌<◌, IsSome, length, OnOk, OnErr};
ghost use Rattle.std.specs.Option.{option_map};
ghost use Rattle.std.specs.Result.{result_err};
ghost use Rattle.sgml_entity.specs.Entities.{entity_at};
ghost use Rattle.sgml_entity.specs.Stack.{opened};
ghost use Rattle.sgml_decl_lexemes.specs.Sources.{reason_of, text_at, internal_text};
ghost use Rattle.sgml_declared.specs.Files.{sources_in};
ghost use Rattle.sgml_declared.specs.Opening.{IsPushed, Opens, refused_by, wanting};
ghost use Rattle.sgml_declared.specs.declared.opening.OpenError.TheVariants.{Memory};

use crate::options::Options;
use crate::subset::ExternalSubset;
use sgml_dtd::Dtd;
use sgml_entity::{Body, InputStack, StackRefused, Texts};
use sgml_text::{Memory, Reason, Text};
use std::alloc::Global;

/// Why a text isn't opened.
#[derive(Debug, Drop)]
pub enum OpenError {
    Refused(Reason),
    /// Its file, of this name, is to be fetched first.
    Wanted(Text),
    /// No memory was there.
    Memory,
}

impl From<Memory> for OpenError {
    ghost from_gives = { λ _ e. e ≡ Memory };

    fn from(_: Memory) -> Self {
        OpenError::Memory
    }
}

/// Opens the text of an entity, or the external subset, on the stack. Where its file is to be fetched it
/// would be refused if the store had no such file, whatever comes after.
pub fn open(
    options: &Options,
    alloc: Global,
    dtd: &Dtd,
    subset: &Option<ExternalSubset>,
    texts: &Texts,
    stack: &mut InputStack,
    number: u32,
) -> Result<(), OpenError>
    requires stacked { 0 < length stack.old.places }
    requires named { IsSome subset.now → IsSome dtd.now.name }
    ensures opens { Opens options.now (sources_in dtd.now subset.now) texts.now stack.old stack.new number result }
    ensures pushed { OnOk result (IsPushed dtd.now.entities texts.now stack.old stack.new number) }
    ensures err { OnErr result (stack.new ≡ stack.old) }
{
    if stack.is_on(number) {
        return Err(OpenError::Refused(Reason::Recursive));
    }
    match text_at(dtd, texts, number) {
        Some(text) => push(stack, number, text.len() as u64),
        None => Err(wanting(options.file_of(alloc, dtd, subset, number)?)),
    }
}

fn push(stack: &mut InputStack, number: u32, size: u64) -> Result<(), OpenError>
    requires { 0 < length stack.old.places }
    ensures refused { result_err result ≡ refused_by number size stack.old }
    ensures ok { OnOk result (stack.new ≡ opened number size stack.old) }
    ensures err { OnErr result (stack.new ≡ stack.old) }
{
    match stack.push(number, size) {
        Ok(()) => Ok(()),
        Err(refused) => Err(OpenError::Refused(reason_of(refused))),
    }
}

fn reason_of(refused: StackRefused) -> Reason
    ensures { result ≡ reason_of refused }
{
    match refused {
        StackRefused::Recursive => Reason::Recursive,
        StackRefused::EntityLevel => Reason::EntityLevel,
        StackRefused::Expansion => Reason::Expansion,
    }
}

/// The text of an entity, where it is in its declaration or was supplied.
fn text_at<'a>(dtd: &'a Dtd, texts: &'a Texts, number: u32) -> Option<&'a [u8]>
    ensures { option_map (λ text. text.now) result ≡ text_at dtd.now.entities texts.now number }
{
    match declared_text(dtd, number) {
        Some(text) => Some(text),
        None => texts.get(number),
    }
}

fn declared_text(dtd: &Dtd, number: u32) -> Option<&[u8]>
    ensures { option_map (λ text. text.now) result ≡ internal_text (entity_at dtd.now.entities number) }
{
    match dtd.entities().get(number) {
        Some(entity) => match &entity.body {
            Body::Sgml(text) => Some(text.items()),
            _ => None,
        },
        None => None,
    }
}

/// What is wanting where a text isn't there: its file, or a name of it.
fn wanting(file: Option<Text>) -> OpenError
    ensures { result ≡ wanting file }
{
    match file {
        Some(file) => OpenError::Wanted(file),
        None => OpenError::Refused(Reason::Unresolved),
    }
}
