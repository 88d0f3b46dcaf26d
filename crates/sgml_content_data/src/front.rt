// What stands at the front of a stretch of characters.
ghost use Rattle.std.specs.Prelude.{◌≡◌, ◌+◌, ◌^◌, ◌<◌, ◌≤◌, length, take};
ghost use Rattle.sgml_entity.specs.Stack.{offset_of};
ghost use Rattle.std.specs.List.{prefix_len};
ghost use Rattle.sgml_prolog_steps.specs.Found.{rest_in};
ghost use Rattle.sgml_content_data.specs.Roles.{front_length, is_data_there, is_ignored_there, IsFront};

use crate::around::Around;
use crate::role::{Role, is_data, is_ignored, of_character};
use sgml_content_steps::Content;
use sgml_entity::Texts;
use sgml_prolog_steps::unread;

/// What stands at the front of a stretch: its first byte, what that is, and how many bytes are taken in one turn.
#[derive(Clone, Copy, Debug)]
pub(crate) struct Front {
    pub byte: u8,
    pub role: Role,
    pub length: u64,
}

/// The next so many bytes.
#[inline(always)]
pub(crate) fn bytes_at<'a>(content: &'a Content, texts: &'a Texts, n: u64) -> &'a [u8]
    requires stacked { 0 < length content.now.kept.stack.places }
    requires within { n ≤ length (rest_in content.now.kept texts.now) }
    ensures value { result.now ≡ take n (rest_in content.now.kept texts.now) }
    ensures fits { offset_of content.now.kept.stack.places + n < 2 ^ 64 }
{
    let rest = unread(content.kept.dtd.entities(), texts, &content.kept.stack);
    &rest[..n as usize]
}

/// The front of a stretch of these bytes.
#[inline(always)]
pub(crate) fn front_of(bytes: &[u8], around: Around) -> Front
    requires { 0 < length bytes.now }
    ensures { IsFront around bytes.now result }
{
    let byte = bytes[0];
    let role = of_character(around, byte);
    Front {
        byte,
        role,
        length: front_length(bytes, around, role) as u64,
    }
}

/// Data and ignored separators are taken together.
fn front_length(bytes: &[u8], around: Around, role: Role) -> usize
    ensures { result ≡ front_length around role bytes.now }
{
    match role {
        Role::Data => data_length(bytes, around),
        Role::Ignored => ignored_length(bytes, around),
        Role::RecordEnd => 1,
        Role::RecordStart => 1,
    }
}

#[inline(always)]
pub(crate) fn data_length(bytes: &[u8], around: Around) -> usize
    ensures { result ≡ prefix_len (is_data_there around) bytes.now }
{
    bytes.iter().take_while(|b| is_data_at(around, **b)).count()
}

/// Whether a character is data, which most are by their byte alone.
#[inline(always)]
pub(crate) fn is_data_at(around: Around, byte: u8) -> bool
    ensures { result ≡ is_data_there around byte }
{
    if byte > b' ' {
        return true;
    }
    is_data(of_character(around, byte))
}

fn ignored_length(bytes: &[u8], around: Around) -> usize
    ensures { result ≡ prefix_len (is_ignored_there around) bytes.now }
{
    bytes
        .iter()
        .take_while(|b| is_ignored(of_character(around, **b)))
        .count()
}
