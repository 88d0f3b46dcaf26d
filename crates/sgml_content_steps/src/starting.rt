// The values of starts that were left out.
ghost use Rattle.std.specs.Prelude.{◌≡◌, All, length, IfOk, IfErr};
ghost use Rattle.sgml_attr.specs.Currents.{SameCurrents};
ghost use Rattle.sgml_infer.specs.Tables.{IsNumber};
ghost use Rattle.sgml_infer.specs.Seen.{started};
ghost use Rattle.sgml_content_steps.specs.Content.{IsContent};
ghost use Rattle.sgml_content_steps.specs.Starts.{IsStopFor};
ghost use Rattle.sgml_content_steps.specs.LeftOut.{AreValuesOf, AreUnvalued, IsValueOf, HasNoValue};

use crate::content::Content;
use sgml_attr::Values;
use sgml_entity::Texts;
use sgml_prolog_steps::Stop;
use sgml_starts::{StartError, start_values};
use std::alloc::Global;

/// The values of the starts that were left out last, from the outside in. An omitted start specifies nothing.
pub(crate) fn values_of_starts(
    alloc: Global,
    content: &mut Content,
    texts: &Texts,
    starts: u32,
) -> Result<Vec<Values>, Stop>
    requires content { IsContent content.old }
    requires numbers { All (IsNumber content.old.kept.doctype) content.old.tree.starts.items }
    requires starts { starts ≡ length content.old.tree.starts.items }
    ensures ok { IfOk result (λ values. AreValuesOf content.old values.items) }
    ensures as_many { IfOk result (λ values. length values.items ≡ length content.old.tree.starts.items) }
    ensures err { IfErr result (IsStopFor (AreUnvalued content.old)) }
    ensures same { content.new ≡ record content.old { currents = content.new.currents } }
    ensures currents { SameCurrents content.new.currents content.old.currents }
{
    let mut values = Vec::new(alloc);
    'starts: for at in 0..starts {
        let element = content.tree.started(at);
        match values_of_start(alloc, content, texts, element) {
            Ok(of_start) => {
                if let Err(_) = values.push(of_start) {
                    return Err(Stop::Memory);
                }
            }
            Err(stop) => return Err(stop),
        }
    }
    Ok(values)
}

// The values of the start of an element of this type that was left out.
fn values_of_start(
    alloc: Global,
    content: &mut Content,
    texts: &Texts,
    element: u32,
) -> Result<Values, Stop>
    requires content { IsContent content.old }
    requires number { IsNumber content.old.kept.doctype element }
    ensures ok { IfOk result (IsValueOf content.old element) }
    ensures err { IfErr result (IsStopFor (HasNoValue content.old element)) }
    ensures same { content.new ≡ record content.old { currents = content.new.currents } }
    ensures currents { SameCurrents content.new.currents content.old.currents }
{
    if !content.tree.has_list(element) {
        return Ok(Values::of(Vec::new(alloc)));
    }
    match start_values(
        alloc,
        content.kept.dtd.syntax(),
        &content.kept.dtd,
        element,
        None,
        &mut content.kept.stack,
        texts,
        &mut content.currents,
    ) {
        Ok(start) => Ok(start.values),
        Err(StartError::Refused(reason)) => Err(Stop::Refused(reason)),
        Err(StartError::Wanted(_)) => unreachable!(),
        Err(StartError::Memory) => Err(Stop::Memory),
    }
}
