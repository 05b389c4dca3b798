//! Bytes in the record's notation.
use std::alloc::{AllocError, Global};
use std::fmt::Write;

/// Bytes in hex, or `_` for none.
pub(crate) fn read_bytes(heap: Global, text: &str) -> anyhow::Result<Vec<u8>> {
    match text {
        "_" => Ok(Vec::new(heap)),
        _ => Ok(hex::decode(heap, text)?),
    }
}

/// Bytes in hex, in parts between `_`, each with `*` and a number where it is repeated.
pub(crate) fn read_packed(heap: Global, text: &str) -> anyhow::Result<Vec<u8>> {
    let mut bytes = Vec::new(heap);
    for part in text.split('_') {
        let (part, times) = part.split_once('*').unwrap_or((part, "1"));
        let part = hex::decode(heap, part)?;
        for _ in 0..times.parse::<usize>()? {
            bytes.extend_from_slice(part.as_slice())?;
        }
    }
    Ok(bytes)
}

/// Bytes in hex, or `_` for none.
pub(crate) fn write_bytes(text: &mut String, bytes: &[u8]) -> Result<(), AllocError> {
    if bytes.is_empty() {
        return write!(text, "_");
    }
    for byte in bytes {
        write!(text, "{byte:02x}")?;
    }
    Ok(())
}
