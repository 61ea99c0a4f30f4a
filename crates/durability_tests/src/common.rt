//! What tests share: the geometry of a small server.

/// One volume of two files of four blocks, in two stripes that hold two blocks each, and four records in a half. Neighboring blocks of a
/// file lie in different stripes. In order: aggregates, volumes, stripes, width, files, blocks, quota, records in a half.
pub(crate) const SMALL: [u16; 8] = [1, 1, 2, 1, 2, 4, 2, 4];
