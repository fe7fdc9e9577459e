//! Reading all of an input.

ghost use Rattle.std.specs.Prelude.{◌≡◌, ◌≤◌, ◌<◌, ◌↔◌, ℕ, List, length, IfOk, IfErr, vec_len};
ghost use Rattle.std.specs.Io.KnownBytes.{Consumes, IsAtEnd};
ghost use Rattle.lpis_run.specs.Failures.{IsUnread};
ghost use Rattle.lpis_run.specs.Streams.{IsRead};
ghost use Rattle.lpis_run.specs.declared.reading.ReadFault.{ReadFault};

use crate::failure::{Failure, Name};
use lpis_memory::without_spare;
use std::alloc::Global;
use std::io::{ErrorKind, Read};
use thiserror::Error;

/// Why an input was not read.
#[derive(Clone, Copy, Debug, PartialEq, Eq, Drop, Error)]
pub enum ReadFault {
    /// A growth was refused.
    #[error("out of memory")]
    Memory,
    /// The reader answered an error, or had not ended after the greatest number of reads.
    #[error("the input could not be read")]
    Read,
    /// The reader gave more bytes than the limit.
    #[error("the input is too long")]
    TooLong,
}

/// The greatest limit that an input can be read under, in bytes: one gibibyte.
pub const GREATEST_LIMIT: usize = 1_073_741_824;

/// How many bytes a read asks for at most.
const CHUNK: usize = 65_536;

/// All bytes that a reader gives up to its end, if they are at most `limit`. Where it stands
/// afterwards shows how much was read: the answer is `TooLong` exactly where that is more.
///
/// An interrupted read is tried again. At most `2 * limit + 16` reads are made; where the reader
/// has not ended by then, the answer is `Read`.
pub fn read_all<R: Read>(alloc: Global, reader: &mut R, limit: usize) -> Result<Vec<u8>, ReadFault>
    requires { limit ≤ GREATEST_LIMIT }
    ensures all { IfOk result (λ v. Consumes (R.remaining reader.old) (R.remaining reader.new)
        v.items × IsAtEnd (R.remaining reader.new) × (vec_len v ≤ limit)) }
    ensures part { IfErr result (λ fault. (given : List ℕ) × Consumes (R.remaining reader.old)
        (R.remaining reader.new) given × ((fault ≡ ReadFault.TooLong) ↔ (limit < length given))) }
{
    let Ok(mut room) = vec![in alloc; 0u8; CHUNK.min(limit + 1)] else {
        return Err(ReadFault::Memory);
    };
    let chunk = room.as_mut_slice();
    let mut bytes = Vec::new(alloc);
    for _ in 0..2 * limit + 16 {
        match reader.read(chunk) {
            Ok(0) => return Ok(bytes),
            Ok(count) => {
                if count > limit - bytes.len() {
                    return Err(ReadFault::TooLong);
                }
                if bytes.extend_from_slice(&chunk[..count]).is_err() {
                    return Err(ReadFault::Memory);
                }
            }
            Err(error) => {
                if error.kind() != ErrorKind::Interrupted {
                    return Err(ReadFault::Read);
                }
            }
        }
    }
    Err(ReadFault::Read)
}

/// All bytes of the input of this name, or the failure that reports it. They lie in a block of
/// their number: the larger a freed block, the larger are those that the C library keeps after they
/// are freed.
pub fn read_lent<R: Read>(alloc: Global, reader: &mut R, name: Name) -> Result<Vec<u8>, Failure>
    ensures all { IfOk result (λ v. IsRead v.items (R.remaining reader.old)) }
    ensures failure { IfErr result (IsUnread name) }
{
    match read_all(alloc, reader, GREATEST_LIMIT) {
        Ok(bytes) => Ok(without_spare(bytes)?),
        Err(ReadFault::Memory) => Err(Failure::Memory),
        Err(_) => Err(Failure::Read(name)),
    }
}

/// The same of a reader that is let go.
pub fn read_named<R: Read + Drop>(alloc: Global, reader: R, name: Name) -> Result<Vec<u8>, Failure>
    ensures all { IfOk result (λ v. IsRead v.items (R.remaining reader)) }
    ensures failure { IfErr result (IsUnread name) }
{
    let mut reader = reader;
    read_lent(alloc, &mut reader, name)
}
