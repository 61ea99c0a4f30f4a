//! What a crash leaves of a device while its log is changed: laws of the definitions alone. No
//! function here does anything; its contract is the law.
//!
//! What a device recovers to comes from the layer above, as a `Decoding`: `read` gives the state that
//! an image holds, `apply` what a record makes of a state, and `is_header` recognizes the device's header.
//!
//! All laws but the last three are of a sequence of calls. They assume to which state the device recovers before it (most also which area
//! it names, and which half is current), and say to which state whatever a crash leaves recovers, by which area and with which half as
//! the current one. The calls named below are those of `Halves`.

ghost use Rattle.std.specs.Prelude.{◌≡◌, ◌==◌, ◌*◌, ◌<◌, ◌≤◌, ℕ, false, [], List, get_or, length};
ghost use Rattle.affinity.specs.declared.geometry.Geometry.{Geometry};
ghost use Rattle.oplog.specs.Crash.{AllRecover, AppendRecovers, ChainRecovers, ChainedRecovers, ClearRecovers, FlipRecovers, ImageRecovers, TornRootRecovers};
ghost use Rattle.oplog.specs.HalfContent.{chain, front, record_at};
ghost use Rattle.device_map.specs.Layout.{Layout, layout_of};
ghost use Rattle.oplog.specs.ChangeRecords.{BadRecordIsOfNoChange, RecordsAreBytes};
ghost use Rattle.oplog.specs.Recovery.{Decoding, named_area, records_in};

/// While records are appended to the current half, a crash leaves a device that recovers to what it
/// recovered to before, with the first m of them run on it, for some m; once `append` is done, with all.
pub fn appended_records_recover<S>()
    ensures some { (decoding : Decoding S) → AppendRecovers decoding }
    ensures all { (decoding : Decoding S) → AllRecover decoding }
{}

/// While the half that isn't named is cleared, and the named one is current, or while the image that isn't named
/// is written, whatever a crash leaves recovers to the same state.
pub fn the_other_area_may_be_torn<S>()
    ensures half { (decoding : Decoding S) → ClearRecovers decoding }
    ensures image { (decoding : Decoding S) → ImageRecovers decoding }
{}

/// While the chain byte of the named half is written, with the other half empty, whatever a crash
/// leaves recovers to the same state; once `open_chain` is done, the other half is current.
pub fn a_torn_chain_does_no_harm<S>()
    ensures torn { (decoding : Decoding S) → ChainRecovers decoding }
    ensures chained { (decoding : Decoding S) → ChainedRecovers decoding }
{}

/// Where both areas recover to the same state, so does whatever a crash leaves while one is being named. Once
/// `flip_root` is done, the device recovers to what the area that is named now held before.
pub fn a_torn_root_does_no_harm<S>()
    ensures torn { (decoding : Decoding S) → TornRootRecovers decoding }
    ensures flipped { (decoding : Decoding S) → FlipRecovers decoding }
{}

/// Where `record` returns `BadRecord`, the bytes have the size of a record and are below 256. If their fields decode
/// to a change in range (a message of a changing kind), they still aren't its record.
pub fn a_bad_record_says_no_message()
    ensures bytes { RecordsAreBytes }
    ensures none { BadRecordIsOfNoChange }
{}

/// For each i below the count that `front` returns, `record` reads record i of the front.
pub fn the_front_is_what_is_read()
    ensures { (l : Layout) (h i : ℕ) (c : List ℕ) → i < length (front l h c) → get_or (front l h c) i [] ≡ record_at l h i c }
{}

/// At most as many records are in force as two halves hold, whatever bytes a device has; where the named half isn't chained, as many as
/// one half.
pub fn at_most_two_halves_are_in_force()
    ensures two { (g : Geometry) (c : List ℕ) → length (records_in g c) ≤ 2 * g.half }
    ensures one { (g : Geometry) (c : List ℕ) → (chain (layout_of g) (named_area (layout_of g) c) c == 1) ≡ false
        → length (records_in g c) ≤ g.half }
{}
