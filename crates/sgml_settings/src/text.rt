// The text of a file.
ghost use Rattle.std.specs.Prelude.{◌≡◌, ◌≤◌, IfOk, IfSome};
ghost use Rattle.sgml_io.specs.Causes.{HasCause, Rose};
ghost use Rattle.sgml_io.specs.Records.{records};
ghost use Rattle.sgml_source.specs.Inputs.{most_bytes, fetched_in};
ghost use Rattle.sgml_settings.specs.BadFiles.{IsTextRead, IsAbsentFile};

use crate::bad_file::{SettingsError, bad_file};
use sgml_io::{FetchError, Store, fetch, to_records};
use sgml_source::MOST_BYTES;
use sgml_text::{Memory, Reason, Text};
use std::alloc::Global;

/// The text of the file of this name, which has this number in places.
pub(crate) fn read_text<S: Store>(
    alloc: Global,
    store: &mut S,
    number: u32,
    name: &Text,
) -> Result<Text, SettingsError>
    ensures text { IfSome (S.files store.old) (λ files. IsTextRead number name.now (fetched_in most_bytes files name.now) result) }
    ensures files { S.files store.new ≡ S.files store.old }
    ensures store { HasCause SettingsError.Store (S.faults store.old) (S.faults store.new) result }
    ensures absents { S.absents store.old ≤ S.absents store.new }
    ensures absent { IsAbsentFile result → Rose (S.absents store.old) (S.absents store.new) }
{
    match fetch(alloc, store, name.items(), MOST_BYTES) {
        Ok(Some(bytes)) => match text_of(alloc, &bytes) {
            Ok(text) => Ok(text),
            Err(_) => Err(SettingsError::Memory),
        },
        Ok(None) => Err(bad_file(alloc, number, name, b"", 0, Reason::Absent)),
        Err(FetchError::TooLarge) => Err(bad_file(
            alloc,
            number,
            name,
            b"",
            0,
            Reason::EntityTooLarge,
        )),
        Err(FetchError::Fault) => Err(SettingsError::Store),
        Err(FetchError::Memory) => Err(SettingsError::Memory),
    }
}

fn text_of(alloc: Global, bytes: &[u8]) -> Result<Text, Memory>
    ensures { IfOk result (λ text. text ≡ records bytes.now) }
{
    Ok(Text::of(to_records(alloc, bytes)?))
}
