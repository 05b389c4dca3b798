//! The account of what a reader has left, on a writer.
ghost use Rattle.std.specs.Prelude.{IfOk};
ghost use Rattle.account.specs.Written.{HasAccountOf, WritesAccount};

use crate::account;
use std::alloc::Global;
use std::io;
use std::io::{Read, Write};
use thiserror::Error;

/// One byte more than an input may have: with it the input is too long, whatever comes after.
const READ_AT_MOST: u64 = 65536;

/// Why an account is not written, or not all of it.
#[derive(Debug, Drop, Error)]
pub enum StreamError {
    /// The reader failed, or memory did not suffice for what it gave. The writer is as it was.
    #[error("the input was not read: {0}")]
    Unread(io::Error),
    /// Memory did not suffice for the account. The writer is as it was.
    #[error("memory did not suffice for the account")]
    OutOfMemory,
    /// The writer failed. What it holds is not known; it may hold a beginning of the account.
    #[error("the account was not written: {0}")]
    Unwritten(io::Error),
}

/// Reads what a reader has left, of a longer input as much as tells its account.
#[tactic(auto, using(crate::proofs::Written::cut_input_has_the_account))]
fn read_input<R: Read + Drop>(heap: Global, reader: R) -> io::Result<Vec<u8>>
    ensures { IfOk result (λ input. HasAccountOf (R.remaining reader) input.items) }
{
    let mut input = Vec::new(heap);
    reader.take(READ_AT_MOST).read_to_end(&mut input)?;
    Ok(input)
}

/// Writes the account of all bytes that a reader has left, after what the writer holds.
/// It reads 65,536 bytes at most, which changes no account, so that an endless input is refused and not waited for.
#[tactic(auto, using(crate::proofs::Written::account_is_written))]
pub fn write_account<R: Read + Drop, W: Write>(
    heap: Global,
    reader: R,
    writer: &mut W,
) -> Result<(), StreamError>
    ensures written { let left = R.remaining reader in
        WritesAccount left (W.contents writer.old) (W.contents writer.new) result }
{
    let input = read_input(heap, reader).map_err(StreamError::Unread)?;
    let out = account(heap, input.as_slice()).map_err(|_| StreamError::OutOfMemory)?;
    writer
        .write_all(out.as_slice())
        .map_err(StreamError::Unwritten)
}
