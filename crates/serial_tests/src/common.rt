//! What tests share: geometries and blocks.

use message::Block;

/// One volume of two files of four blocks, in two stripes that hold two blocks each. Neighboring blocks of a file lie in different stripes.
/// In order: aggregates, volumes, stripes, width, files, blocks, quota, records in a half.
pub(crate) const SMALL: [u16; 8] = [1, 1, 2, 1, 2, 4, 2, 4];

/// The geometry that the program takes by default, in the same order.
pub(crate) const DEFAULTS: [u16; 8] = [1, 4, 4, 4, 16, 64, 64, 256];

// Bytes that begin with these, with zeros after them.
pub(crate) fn padded<const N: usize>(first: &[u8]) -> [u8; N] {
    let mut bytes = [0; N];
    for (byte, given) in bytes.iter_mut().zip(first) {
        *byte = *given;
    }
    bytes
}

// A block that begins with these bytes, with zeros after them.
pub(crate) fn block_of(first: &[u8]) -> Block {
    Block(padded(first))
}
