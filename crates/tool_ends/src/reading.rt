// The bytes of a document, read to their end.
ghost use Rattle.std.specs.Prelude.{◌≡◌, ◌≤◌, ◌+◌, ◌<◌, ◌++◌, ℕ, List, length, vec_len, IfOk, OnOk, OnErr, IsErrOf};
ghost use Rattle.tool_ends.specs.Outside.{IsAtEnd, IsLonger, Rose, TakesAll, TakesFront};

use crate::source::{Failed, Source};
use std::alloc::{AllocError, Global};

/// The greatest number of bytes of a document.
pub const MAX_DOCUMENT_BYTES: usize = 67_108_864;

/// How many bytes are asked for at once.
const PIECE_BYTES: usize = 65_536;

/// Why a document's bytes aren't there.
#[derive(Clone, Copy, Debug, PartialEq, Eq)]
pub enum ReadError {
    /// A read failed.
    Failed,
    /// More than `MAX_DOCUMENT_BYTES` came.
    TooLong,
    /// An allocation was refused.
    OutOfMemory,
}

impl From<AllocError> for ReadError {
    ghost use Rattle.std.specs.Prelude.{◌≡◌};
    ghost use Rattle.tool_ends.specs.declared.reading.ReadError.TheVariants as error;

    ghost from_gives = { λ e r. r ≡ error.OutOfMemory };

    fn from(_: AllocError) -> ReadError {
        ReadError::OutOfMemory
    }
}

/// Reads a source to its end, at most `MAX_DOCUMENT_BYTES` bytes and one more.
///
/// Fails where a read does, where one byte too many comes, and for want of memory.
pub fn read_source<S: Source>(alloc: Global, source: &mut S) -> Result<Vec<u8>, ReadError>
    ensures whole { IfOk result (λ bytes. TakesAll (S.left source.old) bytes.items (S.left source.new)) }
    ensures limited { IfOk result (λ bytes. vec_len bytes ≤ MAX_DOCUMENT_BYTES) }
    ensures failed { IsErrOf result ReadError.Failed → Rose (S.faults source.old) (S.faults source.new) }
    ensures too_long { IsErrOf result ReadError.TooLong → IsLonger MAX_DOCUMENT_BYTES (S.left source.old) }
    ensures counted { S.faults source.old ≤ S.faults source.new }
{
    let mut buffer = vec![in alloc; 0; PIECE_BYTES]?;
    let mut bytes = Vec::new(alloc);
    'pieces: while bytes.len() <= MAX_DOCUMENT_BYTES {
        let room = PIECE_BYTES.min(MAX_DOCUMENT_BYTES + 1 - bytes.len());
        let piece = &mut buffer[..room];
        // By hand, since the contract speaks of the source as the failed read left it.
        let read = match source.read(piece) {
            Ok(read) => read,
            Err(Failed) => return Err(ReadError::Failed),
        };
        if read == 0 {
            return Ok(bytes);
        }
        bytes.extend_from_slice(&piece[..read])?;
    }
    Err(ReadError::TooLong)
}
