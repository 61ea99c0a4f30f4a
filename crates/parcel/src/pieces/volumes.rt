//! A volume's piece of an image: its flags, its files and its label.
ghost use Rattle.std.specs.Prelude.{◌≡◌, ◌↔◌, ◌^◌, ◌-◌, length, unwrap_or, if◌then◌else◌, Some, None, IsTrue, IsFalse};
ghost use Rattle.meaning.specs.Step.{no_label};
ghost use Rattle.parcel.specs.Pieces.{volume_piece_of, decoded_label, decoded_piece, spelled, volume_with};
ghost use Rattle.parcel.specs.Shown.{shown_label};

use crate::parts::files_of;
use crate::{Label, Vol};
use affinity::Geometry;
use affinity::limits::MOST_FILES;
use byteorder::{ByteOrder, LittleEndian};
use device_map::VOLUME_PIECE_SIZE;
use image::layout::VERSION;
use protocol::LABEL_SIZE;

/// Where the files and the label are in a volume's piece, and the zeros after them.
const FILES_AT: usize = 8;

const LABEL_AT: usize = 16;

const ZEROS_AT: usize = LABEL_AT + LABEL_SIZE;

/// What a volume's piece decodes to.
#[derive(Clone, Copy)]
pub(crate) struct VolumePiece {
    made: bool,
    sealed: bool,
    /// File `f` is bit `f`.
    files: u64,
    label: [u8; LABEL_SIZE],
}

/// The label of a volume, or zeros where it has none.
fn label_of(volume: &Vol) -> [u8; LABEL_SIZE]
    ensures { result ≡ unwrap_or (shown_label volume.now.label) no_label }
{
    match &volume.label {
        Some(label) => label.bytes.unwrap_or([0; LABEL_SIZE]),
        None => [0; LABEL_SIZE],
    }
}

/// The number whose bit `f` is 1 for each file `f` of the geometry, and 0 for all others.
fn all_files(g: &Geometry) -> u64
    ensures { result ≡ 2 ^ g.now.files - 1 }
{
    u64::MAX >> (MOST_FILES - g.files)
}

/// The label in the bytes of a volume's piece. Before version 2 there is none, and zeros are given for it.
fn label_decoded(version: u8, bytes: &[u8]) -> [u8; LABEL_SIZE]
    requires size { length bytes.now ≡ VOLUME_PIECE_SIZE }
    ensures { result ≡ decoded_label version bytes.now }
{
    let mut label = [0; LABEL_SIZE];
    if version == VERSION {
        label.copy_from_slice(&bytes[LABEL_AT..ZEROS_AT]);
    }
    label
}

impl VolumePiece {
    /// The piece of a volume.
    fn of(volume: &Vol) -> VolumePiece
        ensures { result ≡ volume_piece_of volume.now }
    {
        VolumePiece {
            made: volume.made,
            sealed: volume.sealed,
            files: files_of(volume),
            label: label_of(volume),
        }
    }

    /// Decodes a volume's piece. Bytes that no field uses aren't checked here (`read_volume` refuses them
    /// unless they are zero), and bits of files that the geometry doesn't have are dropped.
    fn decoded(g: &Geometry, version: u8, bytes: &[u8]) -> VolumePiece
        requires size { length bytes.now ≡ VOLUME_PIECE_SIZE }
        ensures { result ≡ decoded_piece version g.now bytes.now }
    {
        VolumePiece {
            made: bytes[0] == 1,
            sealed: bytes[1] == 1,
            files: LittleEndian::read_u64(&bytes[FILES_AT..LABEL_AT]) & all_files(g),
            label: label_decoded(version, bytes),
        }
    }

    /// Writes the piece: where the volume isn't made, zeros.
    fn write(&self, out: &mut [u8])
        requires size { length out.old ≡ VOLUME_PIECE_SIZE }
        ensures { out.new ≡ spelled self.now }
    {
        if !self.made {
            out.fill(0);
            return;
        }
        out[..FILES_AT].copy_from_slice(&[1, u8::from(self.sealed), 0, 0, 0, 0, 0, 0]);
        LittleEndian::write_u64(&mut out[FILES_AT..LABEL_AT], self.files);
        out[LABEL_AT..ZEROS_AT].copy_from_slice(&self.label);
        out[ZEROS_AT..].fill(0);
    }

    /// Gives a volume the flags, the files and the label.
    fn put_into(&self, volume: &mut Vol)
        ensures { volume.new ≡ volume_with self.now volume.old }
    {
        volume.made = self.made;
        volume.sealed = self.sealed;
        if let Some(logical) = &mut volume.logical {
            logical.files = self.files;
        }
        volume.label = Some(Label {
            bytes: self.label(),
        });
    }

    /// The label, where the volume is made.
    fn label(&self) -> Option<[u8; LABEL_SIZE]>
        ensures { result ≡ (if self.now.made then Some self.now.label else None) }
    {
        if self.made { Some(self.label) } else { None }
    }
}

/// Writes the piece of a volume.
pub(super) fn write_volume(volume: &Vol, out: &mut [u8])
    requires size { length out.old ≡ VOLUME_PIECE_SIZE }
    ensures { out.new ≡ spelled (volume_piece_of volume.now) }
{
    VolumePiece::of(volume).write(out);
}

/// Reads a volume's piece into the volume. Gives whether the bytes are canonical: the encoding of what they
/// decode to. Where they aren't, the volume stays as it is.
pub(super) fn read_volume(volume: &mut Vol, g: &Geometry, version: u8, bytes: &[u8]) -> bool
    requires size { length bytes.now ≡ VOLUME_PIECE_SIZE }
    ensures good { IsTrue result ↔ (bytes.now ≡ spelled (decoded_piece version g.now bytes.now)) }
    ensures taken { IsTrue result → volume.new ≡ volume_with (decoded_piece version g.now bytes.now) volume.old }
    ensures kept { IsFalse result → volume.new ≡ volume.old }
{
    let decoded = VolumePiece::decoded(g, version, bytes);
    let mut written = [0; VOLUME_PIECE_SIZE];
    decoded.write(&mut written);
    if bytes != written.as_slice() {
        return false;
    }
    decoded.put_into(volume);
    true
}
