//! Runs many inputs through `account`: a line of standard input is an input in hex, its account is printed.
#![tactic(auto)]

ghost use Rattle.std.specs.Prelude.{◌<◌};

#[cfg(test)]
mod tests;

use account::account;
use std::alloc::{AllocError, Global};
use std::fmt::Write;
use std::io::{BufRead, BufReader};

/// Accounts above this length are shown by their first and last line, their length and a checksum.
const SHOWN_WHOLE: usize = 2000;

/// The hex digits by their values.
const DIGITS: &[u8; 16] = b"0123456789abcdef";

/// The value of a hex digit in small letters, and 0 of any other byte: no `to_digit`, which takes capital letters too.
fn nibble(digit: u8) -> u8
    ensures { result < 16 }
{
    DIGITS.iter().position(|d| *d == digit).unwrap_or(0) as u8
}

// by hand: the library has no hex of a slice
fn push_hex(out: &mut Vec<u8>, hex: &[u8]) -> Result<(), AllocError> {
    let (pairs, _) = hex.as_chunks::<2>();
    for [high, low] in pairs {
        out.push(nibble(*high) * 16 + nibble(*low))?;
    }
    Ok(())
}

/// The bytes of a line: items of hex, each with `*` and a number where it is repeated.
fn unpack(heap: Global, line: &str) -> anyhow::Result<Vec<u8>> {
    let mut out = Vec::new(heap);
    for item in line.split(' ') {
        let (hex, times) = item.split_once('*').unwrap_or((item, "1"));
        for _ in 0..times.parse::<usize>()? {
            push_hex(&mut out, hex.as_bytes())?;
        }
    }
    Ok(out)
}

/// The bytes as text, those that do not print by their hex.
// no `escape_ascii`: that one writes line feeds and quotes otherwise
fn escape(heap: Global, bytes: &[u8]) -> Result<String, AllocError> {
    let mut text = String::new(heap);
    for byte in bytes {
        match byte {
            b'\n' | b' '..=b'[' | b']'..=b'~' => text.push(char::from(*byte))?,
            _ => write!(text, "\\x{byte:02x}")?,
        }
    }
    Ok(text)
}

/// A checksum over every byte and its place.
fn adler(bytes: &[u8]) -> u32 {
    let mut low = 1u32;
    let mut high = 0u32;
    for byte in bytes {
        low = low.wrapping_add(u32::from(*byte)) % 65521;
        high = high.wrapping_add(low) % 65521;
    }
    high.wrapping_mul(65536).wrapping_add(low)
}

fn show(rt: HostRuntime, bytes: &[u8]) -> anyhow::Result<()> {
    let text = escape(rt.alloc(), bytes)?;
    if bytes.len() <= SHOWN_WHOLE {
        print!(rt; "{text}")?;
        return Ok(());
    }
    if let Some(first) = text.as_str().lines().next() {
        println!(rt; "{first}\n..")?;
    }
    if let Some(last) = text.as_str().lines().last() {
        println!(rt; "{last}")?;
    }
    println!(rt; "{} bytes, adler {}", bytes.len(), adler(bytes))?;
    Ok(())
}

fn main(rt: HostRuntime) -> anyhow::Result<()> {
    // counted beside the lines: the number is printed after the last one too
    let mut number = 0u64;
    for line in BufReader::new(rt.alloc(), rt.stdin())?.lines(rt.alloc()) {
        let line = line?;
        let input = unpack(rt.alloc(), line.as_str())?;
        println!(rt; "{number}:")?;
        show(rt, account(rt.alloc(), input.as_slice())?.as_slice())?;
        number = number.saturating_add(1);
    }
    println!(rt; "{number} inputs")?;
    Ok(())
}
