// What a caller of the board has seen and done.
ghost use Rattle.std.specs.Prelude.{◌≡◌, ◌<◌, true, false, [], length};

use crate::run::Run;
use crate::view::View;
use atomic_table::Seat;

/// The token of a caller of the board. It holds one or more of the 64 parts into which the right to close the board is
/// cut. One pass, the committing one, takes runs. A pass that is dropped takes its parts with it.
#[derive(Drop)]
pub struct Pass<T> {
    pub(crate) seat: Seat<Option<Run<T>>, View<T>>,
    pub(crate) finished: bool,
    pub(crate) taken: u32,
    ghost has_part: { 0 < seat.me.0.parts },
    ghost none_held: { seat.me.0.held ≡ [] },
    ghost no_slot: { seat.me.0.leads ≡ 0 → seat.me.1 ≡ [] },
    ghost is_finished: { finished ≡ true → 0 < seat.me.0.nones },
    ghost is_open: { finished ≡ false → seat.me.0.nones ≡ 0 },
    ghost count: { taken ≡ length seat.me.0.taken },
}

impl<T> Pass<T> {
    ghost use Rattle.sgml_runs.specs.Names.{known};

    /// Whether a claim by this pass, or by one that was joined into it, found no chunk left.
    pub fn finished(&self) -> bool
        ensures yes { result ≡ true → 0 < (known self.now).nones }
        ensures no { result ≡ false → (known self.now).nones ≡ 0 }
    {
        self.finished
    }

    /// How many runs the pass took.
    pub fn taken(&self) -> u32
        ensures { result ≡ length (known self.now).taken }
    {
        self.taken
    }
}
