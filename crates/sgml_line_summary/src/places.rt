// Where a line begins.
ghost use Rattle.std.specs.Prelude.{◌≡◌, ◌≤◌, length};
ghost use Rattle.sgml_line_summary.specs.Begins.{size_of_records};

/// How many bytes of a text the first so many records have.
pub(crate) fn size_of_records(text: &[u8], count: u64) -> usize
    ensures value { result ≡ size_of_records count text.now }
    ensures within { result ≤ length text.now }
{
    let mut left = count;
    'bytes: for (i, b) in text.iter().enumerate() {
        if left == 0 {
            return i;
        }
        if *b == 13 {
            left -= 1;
        }
    }
    text.len()
}
