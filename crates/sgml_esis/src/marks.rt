// The byte that begins a line.
ghost use Rattle.std.specs.Prelude.{◌≡◌};
ghost use Rattle.sgml_esis.specs.Reading.{mark_of};

/// The lines that are a mark and a name.
#[derive(Clone, Copy, Debug, PartialEq, Eq)]
pub enum NameMark {
    Start,
    Finish,
    DataRef,
    DefineNotation,
}

/// The lines that are a mark and a text.
#[derive(Clone, Copy, Debug, PartialEq, Eq)]
pub enum TextMark {
    Chars,
    Pi,
    Public,
    System,
    AppInfo,
}

/// What a line is, by its first byte.
#[derive(Clone, Copy, Debug, PartialEq, Eq)]
pub enum Mark {
    Named(NameMark),
    Texted(TextMark),
    Attribute,
    External,
    Internal,
    Conforming,
}

pub fn mark_of(b: u8) -> Option<Mark>
    ensures { result ≡ mark_of b }
{
    match b {
        b'(' => Some(Mark::Named(NameMark::Start)),
        b')' => Some(Mark::Named(NameMark::Finish)),
        b'&' => Some(Mark::Named(NameMark::DataRef)),
        b'N' => Some(Mark::Named(NameMark::DefineNotation)),
        b'-' => Some(Mark::Texted(TextMark::Chars)),
        b'?' => Some(Mark::Texted(TextMark::Pi)),
        b'p' => Some(Mark::Texted(TextMark::Public)),
        b's' => Some(Mark::Texted(TextMark::System)),
        b'#' => Some(Mark::Texted(TextMark::AppInfo)),
        b'A' => Some(Mark::Attribute),
        b'E' => Some(Mark::External),
        b'I' => Some(Mark::Internal),
        b'C' => Some(Mark::Conforming),
        _ => None,
    }
}
