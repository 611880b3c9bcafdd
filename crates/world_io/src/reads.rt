ghost use Rattle.std.specs.Prelude.{◌≡◌, ◌≤◌, ◌<◌, IfOk, IfSome, IsErrOf, vec_len, length};

use crate::files::FileNo;
use std::alloc::Global;
use std::io::Read;

/// How many bytes one read asks for.
const CHUNK: usize = 65536;

/// All bytes that the reader has left, if they are at most `limit`. It stops as soon as more have come.
pub fn read_within<R: Read>(alloc: Global, reader: &mut R, limit: usize) -> Result<Vec<u8>, FileNo>
    ensures whole { IfOk result (λ bytes. IfSome (R.remaining reader.old) (λ left. bytes.items ≡ left)) }
    ensures within { IfOk result (λ bytes. vec_len bytes ≤ limit) }
    ensures too_long { IsErrOf result FileNo.TooLong → IfSome (R.remaining reader.old) (λ left. limit < length left) }
    ensures not_absent { IsErrOf result FileNo.Absent → ⊥ }
{
    let mut chunk = vec![in alloc; 0; CHUNK].map_err(|_| FileNo::Memory)?;
    read_by_chunks(alloc, reader, chunk.as_mut_slice(), limit)
}

/// The same, by reads into this chunk.
fn read_by_chunks<R: Read>(
    alloc: Global,
    reader: &mut R,
    chunk: &mut [u8],
    limit: usize,
) -> Result<Vec<u8>, FileNo>
    requires { 0 < length chunk.old }
    ensures whole { IfOk result (λ bytes. IfSome (R.remaining reader.old) (λ left. bytes.items ≡ left)) }
    ensures within { IfOk result (λ bytes. vec_len bytes ≤ limit) }
    ensures too_long { IsErrOf result FileNo.TooLong → IfSome (R.remaining reader.old) (λ left. limit < length left) }
    ensures not_absent { IsErrOf result FileNo.Absent → ⊥ }
{
    let mut bytes = Vec::new(alloc);
    loop {
        let count = reader.read(chunk).map_err(|_| FileNo::Failed)?;
        if count == 0 {
            return Ok(bytes);
        }
        if count > limit - bytes.len() {
            return Err(FileNo::TooLong);
        }
        bytes
            .extend_from_slice(&chunk[..count])
            .map_err(|_| FileNo::Memory)?;
    }
}
