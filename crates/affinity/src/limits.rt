//! The limits of a server, and what follows from them.
//!
//! The limits of a geometry are part of the format: a device whose header has a number beyond them is refused. The numbers of workers and
//! slots are not stored, and may differ from one start to the next. The sizes of the format, in bytes, are in `protocol` and `device_map`.

/// Aggregates of a server. No message in one is related to a message in another; `summary` is related to all.
pub const MOST_AGGREGATES: u16 = 4;

/// Volumes of an aggregate.
pub const MOST_VOLUMES: u16 = 8;

/// Stripes of a volume. Blocks of different ones may be read and written at the same time.
pub const MOST_STRIPES: u16 = 8;

/// Consecutive blocks of a file in one stripe: as many as the largest stripe holds.
pub const MOST_WIDTH: u16 = 64;

/// Files of a volume: the reply to `list` and the piece of a volume have them as the bits of one 64-bit number.
pub const MOST_FILES: u16 = 64;

/// Blocks of a file, which so has up to 128 KiB.
pub const MOST_BLOCKS: u16 = 256;

/// Blocks that a stripe can hold. A checkpoint writes the blocks of a stripe as one piece, so this bounds a piece.
pub const MOST_QUOTA: u16 = 64;

/// Records in a half of the log, at least.
pub const LEAST_RECORDS: u16 = 4;

/// Records in a half of the log, at most. An opening replays the records of one half, or of both if a crash interrupted a checkpoint.
pub const MOST_RECORDS: u16 = 1024;

/// Threads that run messages. Each of them looks at the places of all for a job, and the dispatcher for a result.
pub const MOST_WORKERS: u16 = 64;

/// Lines that have been read and whose answer has not been sent. Memory for all of them is taken at the start.
pub const MOST_SLOTS: u16 = 1024;

/// Affinities of a volume: itself, its logical one, the stripes below that, and its label.
pub const VOLUME_AFFINITIES: u16 = 3 + MOST_STRIPES;

/// Affinities of an aggregate: itself, and those of its volumes.
pub const AGGREGATE_AFFINITIES: u16 = 1 + MOST_VOLUMES * VOLUME_AFFINITIES;

/// Affinities of a server: itself, and those of its aggregates.
pub const MOST_AFFINITIES: u16 = 1 + MOST_AGGREGATES * AGGREGATE_AFFINITIES;

/// Pieces of an image: for each volume one of its own, and one for each of its stripes.
pub const MOST_PIECES: u16 = MOST_AGGREGATES * MOST_VOLUMES * (1 + MOST_STRIPES);
