// Where a place of a text is in its storage bytes.
ghost use Rattle.std.specs.Prelude.{◌<◌, ◌≤◌, ◌+◌, ◌*◌, take, length, IfOk, IfSome, IfNone};
ghost use Rattle.sgml_io.specs.Records.{records};
ghost use Rattle.sgml_storage.specs.Storage.{IsStorageOf};

use sgml_io::RecordReader;
use sgml_text::Memory;
use std::alloc::Global;

/// How many storage bytes make the first `n` bytes of their text, if they make so many.
pub fn stored(alloc: Global, bytes: &[u8], n: u64) -> Result<Option<usize>, Memory>
    ensures within { IfOk result (λ found. IfSome found (λ count. count ≤ length bytes.now)) }
    ensures storage { IfOk result (λ found. IfSome found (λ count. IsStorageOf bytes.now n (take count bytes.now))) }
    ensures none { IfOk result (λ found. IfNone found (length (records bytes.now) < n)) }
{
    let mut text = Vec::new(alloc);
    let mut reader = RecordReader::new();
    let mut count = 0usize;
    while count < bytes.len() {
        let made = text.len() as u64;
        if made >= n {
            return Ok(Some(count));
        }
        let end = count + sure(n - made, bytes.len() - count);
        reader.push(&bytes[count..end], &mut text)?;
        count = end;
    }
    if (text.len() as u64) < n {
        return Ok(None);
    }
    Ok(Some(count))
}

// How many bytes, of so many, are needed for what is missing: each makes two bytes of text at most.
fn sure(missing: u64, left: usize) -> usize
    requires missing { 0 < missing }
    requires left { 0 < left }
    ensures some { 0 < result }
    ensures within { result ≤ left }
    ensures needed { 2 * result ≤ missing + 1 }
{
    let half = missing / 2 + missing % 2;
    if half < left as u64 {
        return half as usize;
    }
    left
}
