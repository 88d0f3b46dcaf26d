// Chunks of texts, and what scanning one gives.
ghost use Rattle.std.specs.Prelude.{◌≡◌};

/// The bytes `from` to `to` of the text with this number.
#[derive(Clone, Copy, Debug)]
pub struct Chunk {
    pub text: u32,
    pub from: u64,
    pub to: u64,
}

/// A token, and the place in its text where it begins.
#[derive(Drop)]
pub struct Entry<T> {
    pub at: u64,
    pub token: T,
}

/// What scanning a chunk gave: its tokens, in the order of their places.
#[derive(Drop)]
pub struct Run<T> {
    chunk: Chunk,
    entries: Vec<Entry<T>>,
}

impl<T> Run<T> {
    /// A run of these entries. A board takes it only where it is the run of its chunk.
    pub fn new(chunk: Chunk, entries: Vec<Entry<T>>) -> Run<T>
        ensures { (result.chunk ≡ chunk) × (result.entries ≡ entries) }
    {
        Run { chunk, entries }
    }

    /// The chunk that was scanned.
    pub fn chunk(&self) -> Chunk
        ensures { result ≡ self.now.chunk }
    {
        self.chunk
    }

    /// The tokens that begin in the chunk.
    pub fn entries(&self) -> &[Entry<T>]
        ensures { result.now ≡ self.now.entries.items }
    {
        self.entries.as_slice()
    }

    /// Gives the entries away.
    pub fn into_entries(self) -> Vec<Entry<T>>
        ensures { result ≡ self.entries }
    {
        self.entries
    }
}
