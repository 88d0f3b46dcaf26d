// What a board is made for.
ghost use Rattle.std.specs.Prelude.{◌≡◌};

use crate::run::Chunk;
use std::snapshot::Snapshot;

// The syntax, the texts and the chunks, which fix the run of each chunk. It has no bytes.
#[derive(Drop)]
pub struct Expected<S, X> {
    pub syntax: Snapshot<S>,
    pub texts: Snapshot<X>,
    pub chunks: Snapshot<Vec<Chunk>>,
}

impl<S, X> Expected<S, X> {
    pub fn of(syntax: &S, texts: &X, chunks: &Vec<Chunk>) -> Expected<S, X>
        ensures { (result.syntax.value ≡ syntax.now) × (result.texts.value ≡ texts.now) × (result.chunks.value ≡ chunks.now) }
    {
        Expected {
            syntax: Snapshot::of(syntax),
            texts: Snapshot::of(texts),
            chunks: Snapshot::of(chunks),
        }
    }
}
