// Which bytes names have.
ghost use Rattle.std.specs.Prelude.{◌≡◌, ◌≤◌, ◌||◌, length};
ghost use Rattle.std.specs.List.{list_all, prefix_len};
ghost use Rattle.sgml_text.specs.Runs.{run_of};
ghost use Rattle.sgml_text.specs.NameCharacters.{is_marked, is_name_start, is_name_character, is_name_of, reference_names};

/// What a syntax adds to letters and digits in names: of `-`, `.`, `_` and `:`, in this order,
/// which begin names, and which go on names (13.4.5).
#[derive(Clone, Copy, Debug, PartialEq, Eq)]
pub struct NameSet {
    pub start: [bool; 4],
    pub more: [bool; 4],
}

impl NameSet {
    /// The reference syntax: `-` and `.` go on names (13.4.5).
    pub fn reference() -> NameSet
        ensures { result ≡ reference_names }
    {
        NameSet {
            start: [false; 4],
            more: [true, true, false, false],
        }
    }

    /// Whether a name may begin with this byte.
    pub fn begins(&self, b: u8) -> bool
        ensures { result ≡ is_name_start self.now b }
    {
        b.is_ascii_alphabetic() || is_marked(&self.start, b)
    }

    /// Whether a name may go on with this byte. Letters and digits, and what mostly follows a name, are told first.
    #[inline(always)]
    pub fn goes_on(&self, b: u8) -> bool
        ensures { result ≡ is_name_character self.now b }
    {
        if b.is_ascii_alphanumeric() {
            true
        } else if b == b'>' || b == b'=' || b == b' ' {
            false
        } else {
            self.is_added(b)
        }
    }

    fn is_added(&self, b: u8) -> bool
        ensures { result ≡ (is_marked self.now.start b || is_marked self.now.more b) }
    {
        is_marked(&self.start, b) || is_marked(&self.more, b)
    }

    /// How many name characters the text begins with.
    #[inline]
    pub fn name_length(&self, text: &[u8]) -> usize
        ensures value { result ≡ length (run_of (is_name_character self.now) text.now) }
        ensures count { result ≡ prefix_len (is_name_character self.now) text.now }
        ensures within { result ≤ length text.now }
    {
        self.run_length(text)
    }

    #[inline(always)]
    fn run_length(&self, text: &[u8]) -> usize
        ensures value { result ≡ length (run_of (is_name_character self.now) text.now) }
        ensures within { result ≤ length text.now }
    {
        for (i, b) in text.iter().enumerate() {
            if !self.goes_on(*b) {
                return i;
            }
        }
        text.len()
    }
}

/// Whether these bytes are a name (9.3).
pub fn is_name(bytes: &[u8], set: NameSet) -> bool
    ensures { result ≡ is_name_of set bytes.now }
{
    match bytes {
        [] => false,
        [first, rest @ ..] => set.begins(*first) && all_go_on(&set, rest),
    }
}

fn all_go_on(set: &NameSet, bytes: &[u8]) -> bool
    ensures { result ≡ list_all (is_name_character set.now) bytes.now }
{
    for b in bytes {
        if !set.goes_on(*b) {
            return false;
        }
    }
    true
}

fn is_marked(marks: &[bool; 4], b: u8) -> bool
    ensures { result ≡ is_marked marks.now b }
{
    let [minus, stop, low_line, colon] = *marks;
    (b == b'-' && minus) || (b == b'.' && stop) || (b == b'_' && low_line) || (b == b':' && colon)
}
