// Settings of a syntax, in words behind a mode or a form.
use crate::reading::is;
use sgml_delim::Mode;
use sgml_syntax::{Syntax, implied};
use sgml_text::NameSet;
use sgml_trials::split_at;

/// Whether this is the first of the words.
pub fn begins(words: &[u8], word: &str) -> bool {
    is(split_at(words, b' ').0, word)
}

/// The implied syntax; without short tags; or with names of two characters and instructions of three,
/// and then with names that go on with `_` alone besides letters and digits.
pub fn syntax_of(words: &[u8]) -> Syntax {
    let mut syntax = implied();
    if begins(words, "SHORTTAG=NO") {
        syntax.shorttag = false;
    }
    if begins(words, "SHORT") {
        syntax.quantities.namelen = 2;
        syntax.quantities.pilen = 3;
    }
    if is(words, "SHORT _") {
        syntax.names = NameSet {
            start: [false; 4],
            more: [false, false, true, false],
        };
    }
    syntax
}

/// The mode of this name; Con where it is none.
pub fn mode_of(word: &[u8]) -> Mode {
    let table = [
        ("RCD", Mode::Rcd),
        ("CDT", Mode::Cdt),
        ("RCS", Mode::Rcs),
        ("CDS", Mode::Cds),
        ("IGN", Mode::Ign),
        ("DS", Mode::Ds),
        ("GRP", Mode::Grp),
        ("LIT", Mode::Lit),
        ("LITA", Mode::Lita),
        ("PLT", Mode::Plt),
        ("PLTA", Mode::Plta),
        ("SLT", Mode::Slt),
        ("SLTA", Mode::Slta),
        ("MD", Mode::Md),
        ("PI", Mode::Pi),
        ("REF", Mode::Ref),
        ("TAG", Mode::Tag),
    ];
    for (name, mode) in table {
        if is(word, name) {
            return mode;
        }
    }
    Mode::Con
}
