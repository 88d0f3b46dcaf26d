// What a general entity is to a reference.
ghost use Rattle.std.specs.Prelude.{◌≡◌, IfOk, Some};
ghost use Rattle.sgml_theory_reading.specs.Types.{body_of};
ghost use Rattle.sgml_content_references.specs.Referring.{said_in, said_of_number, instructed_in};
ghost use Rattle.sgml_content_references.specs.declared.entity.Said.TheVariants.{TooLong, Instructs};

use sgml_content_steps::Content;
use sgml_dtd::Dtd;
use sgml_entity::Body;
use sgml_text::{Memory, Text};
use std::alloc::Global;

/// What a general entity is to a reference (9.4.4, 10.5).
#[derive(Debug, Drop)]
pub enum Said {
    /// There is none.
    Nothing,
    /// A text to be read.
    Reads,
    /// Internal data.
    IsData,
    /// External data.
    IsExternal,
    /// The text of a processing instruction.
    Instructs(Text),
    /// An instruction whose text passes PILEN.
    TooLong,
}

/// What the entity of a number is.
pub fn said_of(alloc: Global, dtd: &Dtd, number: u32) -> Result<Said, Memory>
    ensures { IfOk result (λ s. s ≡ said_in dtd.now (body_of dtd.now number)) }
{
    match dtd.entities().get(number) {
        Some(entity) => said_by(alloc, dtd, &entity.body),
        None => Ok(Said::Nothing),
    }
}

fn said_by(alloc: Global, dtd: &Dtd, body: &Body) -> Result<Said, Memory>
    ensures { IfOk result (λ s. s ≡ said_in dtd.now (Some body.now)) }
{
    match body {
        Body::Sgml(_) => Ok(Said::Reads),
        Body::External(_) => Ok(Said::Reads),
        Body::Pi(text) => instructed(alloc, dtd, text),
        Body::Cdata(_) => Ok(Said::IsData),
        Body::Sdata(_) => Ok(Said::IsData),
        Body::ExternalData { .. } => Ok(Said::IsExternal),
    }
}

fn instructed(alloc: Global, dtd: &Dtd, text: &Text) -> Result<Said, Memory>
    ensures { IfOk result (λ s. s ≡ instructed_in dtd.now text.now) }
{
    if text.items().len() as u64 > dtd.syntax().quantities.pilen as u64 {
        return Ok(Said::TooLong);
    }
    Ok(Said::Instructs(text.copy(alloc)?))
}

/// What it is in content.
pub(crate) fn said_in(alloc: Global, content: &Content, number: u32) -> Result<Said, Memory>
    ensures { IfOk result (λ s. s ≡ said_of_number content.now.kept.doctype number) }
{
    said_of(alloc, &content.kept.dtd, number)
}
