//! The account of a listing: from the bytes of an input to the bytes that are printed.
#![tactic(auto)]

ghost use Rattle.std.specs.Prelude.{◌≡◌, IfOk};
ghost use Rattle.account.specs.Account.{account_of};
ghost use Rattle.account.specs.Law.{AccountLaw};
ghost use Rattle.account.specs.Steps.{Prints};

use crate::asked::{filter_of, list_of, query_of, shifted};
use crate::listing::push_lines;
use crate::printing::push_refused_line;
use crate::refusal::AccountError;
use input::{Input, read};
use std::alloc::{AllocError, Global};

mod asked;
mod listing;
mod printing;
mod refusal;
mod streams;

pub use streams::{StreamError, write_account};

/// Adds the account of an input, but for the line of a refusal.
fn push_account(out: &mut Vec<u8>, input: &[u8]) -> Result<(), AccountError>
    ensures { Prints (account_of input.now) result out.old.items out.new.items }
{
    let Input {
        text,
        lower,
        upper,
        prefix,
        subsequence,
        shift,
        names,
    } = read(*out.allocator(), input)?;
    let list = list_of(*out.allocator(), text, names)?;
    let graph = shifted(list, shift)?;
    let query = query_of(lower, upper);
    let filter = filter_of(prefix, subsequence);
    push_lines(out, query, &graph, &filter)
}

/// The account of an input: the bytes that a listing prints, or want of memory.
#[tactic(auto, using(crate::proofs::AccountLaws::account_law))]
pub fn account(heap: Global, input: &[u8]) -> Result<Vec<u8>, AllocError>
    ensures answer { IfOk result (λ out. out.items ≡ account_of input.now) }
    ensures law { AccountLaw }
{
    let mut out = Vec::new(heap);
    // no `?`: one outcome is the answer, one adds its line, and one is the error
    match push_account(&mut out, input) {
        Ok(()) => Ok(out),
        Err(AccountError::Refused(refusal)) => {
            push_refused_line(&mut out, refusal).map_err(|_| AllocError)?;
            Ok(out)
        }
        Err(AccountError::OutOfMemory) => Err(AllocError),
    }
}
