//! The good files, and files at the limits of the format.
use std::alloc::{AllocError, Global};

/// A file that is accepted, and its name in the account.
#[derive(Clone, Copy)]
pub(crate) struct GoodFile {
    pub(crate) name: &'static str,
    pub(crate) bytes: &'static [u8],
}

/// One node, which is final: the key "" with the total 7.
pub(crate) const LEAF: GoodFile = GoodFile {
    name: "leaf",
    bytes: b"\x01\0\0\0\
        \x14\0\0\0\0\0\x01\0\x07\0\0\0\0\0\0\0",
};

/// Node 1 leads by "a" and by "b" to node 0, which is final.
pub(crate) const PAIR: GoodFile = GoodFile {
    name: "pair",
    bytes: b"\x02\0\0\0\
        \x24\0\0\0\0\0\x01\0\x05\0\0\0\0\0\0\0\
        \x24\0\0\0\x02\0\0\0\0\0\0\0\0\0\0\0\
        a\0\0\0\0\x07\0\0\0\0\0\0\0\
        b\0\0\0\0\x01\x02\0\0\0\0\0\0",
};

/// The keys "", "a", "b" and "bb", and two bytes after the last body.
pub(crate) const FORK: GoodFile = GoodFile {
    name: "fork",
    bytes: b"\x03\0\0\0\
        \x34\0\0\0\0\0\x01\0\0\0\0\0\0\0\0\0\
        \x34\0\0\0\x01\0\x01\0\x03\0\0\0\0\0\0\0\
        \x41\0\0\0\x02\0\x01\0\x02\0\0\0\0\0\0\0\
        b\0\0\0\0\x14\0\0\0\0\0\0\0\
        a\0\0\0\0\x64\0\0\0\0\0\0\0\
        b\x01\0\0\0\xc8\0\0\0\0\0\0\0\
        zz",
};

/// An entry of a node that is not final: after the number of transitions all is 0.
fn put_entry(file: &mut Vec<u8>, place: u32, len: u16) -> Result<(), AllocError> {
    file.extend_from_slice(&place.to_le_bytes())?;
    file.extend_from_slice(&len.to_le_bytes())?;
    file.extend_from_slice(&[0; 10])
}

/// A transition to node 0 with the output 0: after its byte all is 0.
fn put_transition(file: &mut Vec<u8>, byte: u16) -> Result<(), AllocError> {
    file.push((byte % 256) as u8)?;
    file.extend_from_slice(&[0; 12])
}

/// A file of nodes that have no transitions.
pub(crate) fn bare_nodes(heap: Global, nodes: u32) -> Result<Vec<u8>, AllocError> {
    let mut file = Vec::from_slice(heap, &nodes.to_le_bytes())?;
    let bodies = nodes.wrapping_mul(16).wrapping_add(4);
    for _ in 0..nodes {
        put_entry(&mut file, bodies, 0)?;
    }
    Ok(file)
}

/// A file whose root has transitions with the bytes from 0 on.
pub(crate) fn wide_root(heap: Global, len: u16) -> Result<Vec<u8>, AllocError> {
    let mut file = Vec::from_slice(heap, &2u32.to_le_bytes())?;
    put_entry(&mut file, 36, 0)?;
    put_entry(&mut file, 36, len)?;
    for byte in 0..len {
        put_transition(&mut file, byte)?;
    }
    Ok(file)
}
