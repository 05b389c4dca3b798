//! Whether text and rows are a list of names.
ghost use Rattle.std.specs.Prelude.{◌≡◌, true, ◌↔◌, is_ok, IfOk, Some};
ghost use Rattle.std.specs.Option.{option_map};
ghost use Rattle.std.specs.Result.{result_err};
ghost use Rattle.names.specs.declared.refusal.Refusal.{Refusal as Reason};
ghost use Rattle.names.specs.Names.{cut};
ghost use Rattle.names.specs.Refusals.{refusal_at, refusal_of};
ghost use Rattle.names.specs.Rising.{Rising, Refused};

use crate::name::Name;
use crate::refusal::Refusal;
use byte_strings::compare;

/// The bytes of name number `i`, or why they can't stand behind those of the name before, if there is one.
fn next_name<'t>(
    text: &'t [u8],
    before: Option<&[u8]>,
    i: u32,
    row: Name,
) -> Result<&'t [u8], Refusal>
    ensures answer { result_err result ≡ refusal_at text.now (option_map (λ x. x.now) before.entry) i row }
    ensures bytes { IfOk result (λ k. k.now ≡ cut text.now row) }
{
    let name = row
        .bytes(text)
        .filter(|name| name.len() <= 255)
        .ok_or(Refusal::NameOutOfRange(i))?;
    match before {
        Some(before) if compare(before, name).is_ge() => Err(Refusal::NotRising(i)),
        _ => Ok(name),
    }
}

/// Whether text and rows are a list of names, and where they are none, the refusal of the first name that has one.
pub fn check(text: &[u8], rows: &[Name]) -> Result<(), Refusal>
    ensures answer { result_err result ≡ refusal_of text.now rows.now }
    ensures accepted { (is_ok result ≡ true) ↔ Rising text.now rows.now }
    ensures refused { (e : Reason) → (result_err result ≡ Some e) ↔ Refused text.now rows.now e }
{
    if rows.is_empty() || rows.len() > 65536 {
        return Err(Refusal::CountOutOfRange);
    }
    let mut before = None;
    for (i, row) in rows.iter().enumerate() {
        before = Some(next_name(text, before, i as u32, *row)?);
    }
    Ok(())
}
