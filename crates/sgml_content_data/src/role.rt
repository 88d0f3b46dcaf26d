// What a character is where it stands.
ghost use Rattle.std.specs.Prelude.{◌≡◌};
ghost use Rattle.sgml_content_data.specs.Roles.{role_of_separator, role_of_character, is_data, is_ignored};

use crate::around::Around;
use sgml_text::is_separator;

/// What a character is where it stands (7.6, 7.6.1).
#[derive(Clone, Copy, Debug, PartialEq, Eq)]
pub(crate) enum Role {
    Data,
    RecordEnd,
    RecordStart,
    /// A separator where there is no `#PCDATA`.
    Ignored,
}

/// What a separator is.
pub(crate) fn of_separator(around: Around, byte: u8) -> Role
    ensures { result ≡ role_of_separator around byte }
{
    if byte == b'\r' {
        return if around.text {
            Role::RecordEnd
        } else {
            Role::Ignored
        };
    }
    if byte == b'\n' {
        return if around.text {
            Role::RecordStart
        } else {
            Role::Ignored
        };
    }
    if around.text || around.section {
        Role::Data
    } else {
        Role::Ignored
    }
}

/// What a character is that isn't referenced.
pub(crate) fn of_character(around: Around, byte: u8) -> Role
    ensures { result ≡ role_of_character around byte }
{
    if is_separator(byte) {
        of_separator(around, byte)
    } else {
        Role::Data
    }
}

pub(crate) fn is_data(role: Role) -> bool
    ensures { result ≡ is_data role }
{
    match role {
        Role::Data => true,
        Role::RecordEnd => false,
        Role::RecordStart => false,
        Role::Ignored => false,
    }
}

pub(crate) fn is_ignored(role: Role) -> bool
    ensures { result ≡ is_ignored role }
{
    match role {
        Role::Ignored => true,
        Role::Data => false,
        Role::RecordEnd => false,
        Role::RecordStart => false,
    }
}
