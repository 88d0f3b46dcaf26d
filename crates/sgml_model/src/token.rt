// The tokens of a group, and the limits on groups.
use sgml_text::Name;

/// A token of a group (ISO 8879, 11.2.4).
#[derive(Drop)]
pub enum GroupToken {
    /// `(`
    Begin,
    /// `)`
    Finish,
    /// An element token.
    Name(Name),
    /// `#PCDATA`
    Pcdata,
    /// `,`
    Seq,
    /// `|`
    Or,
    /// `&`
    And,
    /// `?`
    Opt,
    /// `+`
    Plus,
    /// `*`
    Rep,
}

/// The quantities of groups (ISO 8879, 13.4.8).
#[derive(Clone, Copy, Debug, PartialEq, Eq)]
pub struct GroupLimits {
    /// GRPCNT: the members of one group.
    pub count: u32,
    /// GRPGTCNT: the members of all groups, a group in a group being one.
    pub total: u32,
    /// GRPLVL: the groups within each other.
    pub level: u32,
}

/// A quantity that a group passed.
#[derive(Clone, Copy, Debug, PartialEq, Eq)]
pub enum Which {
    Count,
    Total,
    Level,
}
