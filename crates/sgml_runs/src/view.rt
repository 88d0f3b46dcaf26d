// What a pass knows.
ghost use Rattle.std.specs.Prelude.{ℕ, List};
ghost use Rattle.std.specs.Borrow.{ftrue};
ghost use Rattle.sgml_runs.specs.declared.run.Chunk.{Chunk};
ghost use Rattle.sgml_runs.specs.declared.run.Entry.{Entry};

use std::marker::{Model, PhantomData};

// What a seat knows and has done, the newest number first in each list. No value of it is made.
pub struct View<T> {
    marker: PhantomData<T>,
    // The runs of all chunks, by number.
    pub ghost runs: { List (Chunk × List (Entry T)) },
    // How many of the 64 parts of the right to know the whole it has.
    pub ghost parts: { ℕ },
    // How many of its claims found no chunk.
    pub ghost nones: { ℕ },
    // 1 in the committing pass, else 0.
    pub ghost leads: { ℕ },
    pub ghost claims: { List ℕ },
    // Chunks whose slot it has out, to post their runs.
    pub ghost held: { List ℕ },
    // Chunks that it posted.
    pub ghost marks: { List ℕ },
    // Chunks whose mark it found, once for each look.
    pub ghost seen: { List ℕ },
    // Chunks whose mark it did not find, once for each look.
    pub ghost misses: { List ℕ },
    pub ghost taken: { List ℕ },
}

impl<T> Model for View<T> {
    ghost also_owns = { λ _. ftrue };
}
