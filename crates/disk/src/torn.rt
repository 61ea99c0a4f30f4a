//! Kinds of crash, and what each leaves of what was not synced.
ghost use Rattle.std.specs.Prelude.{◌≡◌, ◌<◌, length};
ghost use Rattle.disk.specs.CrashImages.{HasPattern, torn_byte, torn_from};

/// What a crash leaves at the offsets that were written, also by a write that failed, and not synced since.
#[derive(Debug, Drop)]
pub enum Torn {
    /// The bytes of the last sync.
    Old,
    /// The bytes of the last write there.
    New,
    /// This byte.
    Fill(u8),
    /// These bytes, repeated as often as needed, from the lowest such offset upward.
    Mixed(Vec<u8>),
}

impl Torn {
    /// The byte that it puts at the unsynced offset i, with k unsynced ones below it. `HasPattern`: if it is `Mixed`, it has a byte.
    fn byte(&self, last_synced: &[u8], last_written: &[u8], i: usize, k: usize) -> u8
        requires has_bytes { HasPattern self.now }
        requires in_last_synced { i < length last_synced.now }
        requires in_last_written { i < length last_written.now }
        ensures { result ≡ torn_byte self.now last_synced.now last_written.now i k }
    {
        match self {
            Torn::Old => last_synced[i],
            Torn::New => last_written[i],
            Torn::Fill(byte) => *byte,
            Torn::Mixed(pattern) => pattern[k % pattern.len()],
        }
    }
}

/// Puts at each unsynced offset of these bytes what such a crash leaves there. (The zeros in its promise: from offset 0 on, with 0 unsynced
/// bytes below it.)
pub(crate) fn tear(
    kind: &Torn,
    last_synced: &[u8],
    last_written: &[u8],
    unsynced: &[bool],
    bytes: &mut [u8],
)
    requires has_bytes { HasPattern kind.now }
    requires last_synced { length last_synced.now ≡ length bytes.old }
    requires last_written { length last_written.now ≡ length bytes.old }
    requires unsynced { length unsynced.now ≡ length bytes.old }
    ensures { bytes.new ≡ torn_from (torn_byte kind.now last_synced.now last_written.now) 0 0 unsynced.now bytes.old }
{
    let mut below = 0;
    for (i, is_unsynced) in unsynced.iter().enumerate() {
        if *is_unsynced {
            bytes[i] = kind.byte(last_synced, last_written, i, below);
            below += 1;
        }
    }
}
