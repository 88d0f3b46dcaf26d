// A run of omitted tags.
ghost use Rattle.std.specs.Prelude.{◌≡◌, ◌+◌, ◌*◌};
ghost use Rattle.sgml_content_steps.specs.Runs.{room_of};

use sgml_attr::Values;
use sgml_infer::Chain;

/// A run of omitted tags before a visible piece.
#[derive(Debug, Drop)]
pub struct Run {
    pub(crate) chain: Chain,
    // Of each start, from the outside in.
    pub(crate) values: Vec<Values>,
}

impl Run {
    /// How many events it may tell.
    pub fn room(&self) -> usize
        ensures { result ≡ room_of self.now }
    {
        self.chain.ends as usize + 2 * self.chain.starts as usize
    }

    /// The visible piece is the start of an element that an open one includes (11.2.5.1).
    pub fn is_included(&self) -> bool
        ensures { result ≡ self.now.chain.included }
    {
        self.chain.included
    }
}
