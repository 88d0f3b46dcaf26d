// What is noted of an answer.
ghost use Rattle.std.specs.Prelude.{◌≡◌, IfOk, OnErr, Ok};
ghost use Rattle.sgml_parse.specs.Parsing.{error_in, place_in, wanted_of};
ghost use Rattle.sgml_parse.specs.Batches.{error_of, wanted_at};
ghost use Rattle.sgml_parse.specs.There.{reading_of};
ghost use Rattle.sgml_parse.specs.Going.{IsWant, IsNoted, IsToldOf, checked, unless_missing};
ghost use Rattle.sgml_parse.specs.Together.{IsWantThen, IsNotedThen, IsToldThen, checked_then, unless_missing_then};

use crate::answer::{ParseError, ParsePause, ParseStep, Wanted};
use crate::missing::Missing;
use crate::reading::Reading;
use sgml_text::{Memory, Place, Reason, Refusal, Text};
use std::alloc::Global;

/// The answer that is told, by which it is noted what is wanted: unless that was supplied and isn't there.
pub(crate) fn tell(
    alloc: Global,
    answer: Result<ParseStep, ParseError>,
    wanted: &mut Option<Wanted>,
    missing: &Missing,
    reading: &Reading,
) -> Result<ParseStep, ParseError>
    ensures { IsToldOf missing.now (place_in (reading_of reading.now)) answer wanted.new result }
{
    check(note(alloc, answer, wanted), missing, reading.place())
}

fn check(
    noted: Result<ParseStep, ParseError>,
    missing: &Missing,
    place: Place,
) -> Result<ParseStep, ParseError>
    ensures { result ≡ checked missing.now place noted }
{
    match noted {
        Ok(ParseStep::Want { entity, name }) => {
            unless_missing(place, missing.why(entity), entity, name)
        }
        noted => noted,
    }
}

fn unless_missing(
    place: Place,
    why: Option<Reason>,
    entity: u32,
    name: Text,
) -> Result<ParseStep, ParseError>
    ensures { result ≡ unless_missing place why entity name }
{
    match why {
        Some(reason) => Err(ParseError::Refused(Refusal { place, reason })),
        None => Ok(ParseStep::Want { entity, name }),
    }
}

/// The answer, by which it is noted what is wanted.
fn note(
    alloc: Global,
    answer: Result<ParseStep, ParseError>,
    wanted: &mut Option<Wanted>,
) -> Result<ParseStep, ParseError>
    ensures { IsNoted answer wanted.new result }
{
    let step = answer?;
    *wanted = wanted_of(alloc, &step)?;
    Ok(step)
}

/// What this step wants.
fn wanted_of(alloc: Global, step: &ParseStep) -> Result<Option<Wanted>, Memory>
    ensures ok { IfOk result (λ wanted. wanted ≡ wanted_of step.now) }
    ensures err { OnErr result (IsWant (Ok step.now)) }
{
    match step {
        ParseStep::Want { entity, name } => Ok(Some(Wanted {
            entity: *entity,
            name: name.copy(alloc)?,
        })),
        _ => Ok(None),
    }
}

/// Why nothing more is read after this answer.
pub(crate) fn error_in(answer: &Result<ParseStep, ParseError>) -> Option<ParseError>
    ensures { result ≡ error_in answer.now }
{
    match answer {
        Ok(_) => None,
        Err(error) => Some(*error),
    }
}

/// The answer after many events that is told, by which it is noted what is wanted: unless that was supplied and isn't there.
pub(crate) fn tell_pause(
    alloc: Global,
    answer: Result<ParsePause, ParseError>,
    wanted: &mut Option<Wanted>,
    missing: &Missing,
    reading: &Reading,
) -> Result<ParsePause, ParseError>
    ensures { IsToldThen missing.now (place_in (reading_of reading.now)) answer wanted.new result }
{
    check_pause(note_pause(alloc, answer, wanted), missing, reading.place())
}

fn check_pause(
    noted: Result<ParsePause, ParseError>,
    missing: &Missing,
    place: Place,
) -> Result<ParsePause, ParseError>
    ensures { result ≡ checked_then missing.now place noted }
{
    match noted {
        Ok(ParsePause::Want { entity, name }) => {
            unless_missing_then(place, missing.why(entity), entity, name)
        }
        noted => noted,
    }
}

fn unless_missing_then(
    place: Place,
    why: Option<Reason>,
    entity: u32,
    name: Text,
) -> Result<ParsePause, ParseError>
    ensures { result ≡ unless_missing_then place why entity name }
{
    match why {
        Some(reason) => Err(ParseError::Refused(Refusal { place, reason })),
        None => Ok(ParsePause::Want { entity, name }),
    }
}

/// The answer after many events, by which it is noted what is wanted.
fn note_pause(
    alloc: Global,
    answer: Result<ParsePause, ParseError>,
    wanted: &mut Option<Wanted>,
) -> Result<ParsePause, ParseError>
    ensures { IsNotedThen answer wanted.new result }
{
    let pause = match answer {
        Ok(pause) => pause,
        Err(error) => return Err(error),
    };
    match wanted_at(alloc, &pause) {
        Ok(found) => {
            *wanted = found;
            Ok(pause)
        }
        Err(_) => Err(ParseError::Memory),
    }
}

/// What is wanted at this pause.
fn wanted_at(alloc: Global, pause: &ParsePause) -> Result<Option<Wanted>, Memory>
    ensures ok { IfOk result (λ wanted. wanted ≡ wanted_at pause.now) }
    ensures err { OnErr result (IsWantThen (Ok pause.now)) }
{
    match pause {
        ParsePause::Want { entity, name } => Ok(Some(Wanted {
            entity: *entity,
            name: name.copy(alloc)?,
        })),
        _ => Ok(None),
    }
}

/// Why nothing more is read after this answer of many events.
pub(crate) fn error_of(answer: &Result<ParsePause, ParseError>) -> Option<ParseError>
    ensures { result ≡ error_of answer.now }
{
    match answer {
        Err(failure) => Some(*failure),
        Ok(_) => None,
    }
}
