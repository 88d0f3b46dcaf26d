// Delimiters, modes, and answers about them.

/// A delimiter, by its role (9.6.1, figure 3). `Re` is the record end that ends a reference
/// (9.4.5).
#[derive(Clone, Copy, Debug, PartialEq, Eq)]
pub enum Delim {
    And,
    Com,
    Cro,
    Dsc,
    Dso,
    Ero,
    Etago,
    Grpc,
    Grpo,
    Lit,
    Lita,
    Mdc,
    Mdo,
    Minus,
    Msc,
    Net,
    Opt,
    Or,
    Pero,
    Pic,
    Pio,
    Plus,
    Re,
    Refc,
    Rep,
    Rni,
    Seq,
    Stago,
    Tagc,
    Vi,
}

/// Where a text is read: the modes of recognition (9.6.1), parted as the profile needs them.
#[derive(Clone, Copy, Debug, PartialEq, Eq)]
pub enum Mode {
    /// Content.
    Con,
    /// RCDATA declared content.
    Rcd,
    /// CDATA declared content.
    Cdt,
    /// An RCDATA marked section.
    Rcs,
    /// A CDATA marked section.
    Cds,
    /// An IGNORE marked section.
    Ign,
    /// The prolog, and the subsets of the document type declaration.
    Ds,
    /// A group.
    Grp,
    /// An attribute value literal in quotation marks.
    Lit,
    /// An attribute value literal in apostrophes.
    Lita,
    /// A parameter literal in quotation marks.
    Plt,
    /// A parameter literal in apostrophes.
    Plta,
    /// A minimum or system literal in quotation marks.
    Slt,
    /// A minimum or system literal in apostrophes.
    Slta,
    /// A declaration.
    Md,
    /// A processing instruction.
    Pi,
    /// After a reference's name.
    Ref,
    /// A tag.
    Tag,
}

/// What must follow a delimiter: its contextual constraint (9.6.2).
#[derive(Clone, Copy, Debug, PartialEq, Eq)]
pub enum Need {
    Nothing,
    NameStart,
    NameStartOrTagc,
    NameStartOrDigit,
    AfterMdo,
    Mdc,
    Dso,
}

/// Whether something holds of a text of which more may follow.
#[derive(Clone, Copy, Debug, PartialEq, Eq)]
pub enum Verdict {
    Holds,
    Fails,
    Undecided,
}

/// Which delimiter stands at a place, with the length of its string; or none, or what follows the
/// text decides.
#[derive(Clone, Copy, Debug, PartialEq, Eq)]
pub enum Recognised {
    Found(Delim, usize),
    Plain,
    NeedMore,
}
