//! The lines of an account.
ghost use Rattle.std.specs.Prelude.{◌≡◌, ◌++◌, OnOk};
ghost use Rattle.account.specs.Account.{entry, key_line, end_line, refused_line};
ghost use Rattle.account.specs.Numbers.{number_of};

use crate::refusal::Refusal;
use std::io;
use std::io::Write;

/// Adds the line of a key.
pub(crate) fn push_key_line(out: &mut Vec<u8>, total: u64, key: &[u8]) -> io::Result<()>
    ensures { OnOk result (out.new.items ≡ out.old.items ++ key_line (entry total key.now)) }
{
    write!(out, "{total} ")?;
    out.write_all(key)?;
    writeln!(out)
}

/// Adds the last line: the end, with the number of keys.
pub(crate) fn push_end_line(out: &mut Vec<u8>, count: u32) -> io::Result<()>
    ensures { OnOk result (out.new.items ≡ out.old.items ++ end_line count) }
{
    writeln!(out, "end {count}")
}

/// Adds the last line: a refusal, by its number.
pub(crate) fn push_refused_line(out: &mut Vec<u8>, refusal: Refusal) -> io::Result<()>
    ensures { OnOk result (out.new.items ≡ out.old.items ++ refused_line (number_of refusal)) }
{
    let number = refusal.number();
    writeln!(out, "refused {number}")
}
