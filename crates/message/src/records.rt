//! Messages as records of a fixed size.

ghost use Rattle.std.specs.Prelude.{◌≡◌, ◌↔◌, ◌-◌, true, Some, take, drop, length, IfSome, IsTrue, slice_index};
ghost use Rattle.affinity.specs.declared.kinds.Kind.{Kind};
ghost use Rattle.protocol.specs.Messages.{IsMessage, is_in_range};
ghost use Rattle.message.specs.Heads.{has_data};
ghost use Rattle.message.specs.Records.{FitsRecord, assembled, data_of, message_in_fields, record_head, kind_number, kind_numbered, record_of};
ghost use Rattle.protocol.specs.declared.messages.Msg.{Msg};
ghost use Rattle.protocol.specs.declared.sizes.TheConstants.{RECORD_HEAD_SIZE};

use affinity::{Geometry, Kind, is_in_range};
use byteorder::{ByteOrder, LittleEndian};
use protocol::{BLOCK_SIZE, Block, LABEL_SIZE, Msg, RECORD_HEAD_SIZE, RECORD_SIZE};

/// Writes the record of a message into `out`, all of it. The message's aggregate, volume and file
/// are at most 255 each.
pub fn encode(m: &Msg, out: &mut [u8; RECORD_SIZE])
    requires { FitsRecord m.now }
    ensures { out.new ≡ record_of m.now }
{
    out[..RECORD_HEAD_SIZE].copy_from_slice(&head_of(m));
    match m {
        Msg::Write(_, _, _, _, content) => out[RECORD_HEAD_SIZE..].copy_from_slice(&content.0),
        Msg::SetLabel(_, _, label) => {
            out[RECORD_HEAD_SIZE..RECORD_HEAD_SIZE + LABEL_SIZE].copy_from_slice(label);
            out[RECORD_HEAD_SIZE + LABEL_SIZE..].fill(0);
        }
        _ => out[RECORD_HEAD_SIZE..].fill(0),
    }
}

/// The message in range whose record these bytes are; `None` where they are no such message's.
pub fn decode(bytes: &[u8; RECORD_SIZE], g: &Geometry) -> Option<Msg>
    ensures exact { (m : Msg) → IsMessage m → (result ≡ Some m) ↔ ((bytes.now ≡ record_of m) × (is_in_range g.now m ≡ true)) }
    ensures whole { IfSome result IsMessage }
{
    let m = message_in_fields(bytes)?;
    if !is_in_range(g, m.kind(), m.numbers()) {
        return None;
    }
    if has_head_of(bytes, &m) && has_data_of(bytes, &m) {
        Some(m)
    } else {
        None
    }
}

/// Whether these bytes begin with the head of this message's record, with two zeros at its end.
fn has_head_of(bytes: &[u8; RECORD_SIZE], m: &Msg) -> bool
    requires { FitsRecord m.now }
    ensures { IsTrue result ↔ (take RECORD_HEAD_SIZE bytes.now ≡ record_head m.now) }
{
    bytes[..RECORD_HEAD_SIZE] == head_of(m)[..]
}

/// Whether what comes after the head is the data of `m`, which was made of the fields of `bytes`.
fn has_data_of(bytes: &[u8; RECORD_SIZE], m: &Msg) -> bool
    requires { Some m.now ≡ message_in_fields bytes.now }
    ensures { IsTrue result ↔ (drop RECORD_HEAD_SIZE bytes.now ≡ data_of m.now) }
{
    match m {
        Msg::Write(..) => true,
        Msg::SetLabel(..) => bytes[RECORD_HEAD_SIZE + LABEL_SIZE..]
            == [0; BLOCK_SIZE - LABEL_SIZE][..],
        _ => bytes[RECORD_HEAD_SIZE..] == [0; BLOCK_SIZE][..],
    }
}

/// What comes before the data of a record.
fn head_of(m: &Msg) -> [u8; RECORD_HEAD_SIZE]
    requires { FitsRecord m.now }
    ensures { result ≡ record_head m.now }
{
    let [aggregate, volume, file, block] = m.numbers();
    let kind = kind_number(m.kind());
    let mut head = [kind, aggregate as u8, volume as u8, file as u8, 0, 0, 0, 0];
    LittleEndian::write_u16(&mut head[4..6], block);
    head
}

/// The message that the fields encode; fields that its kind doesn't use are ignored.
fn message_in_fields(bytes: &[u8; RECORD_SIZE]) -> Option<Msg>
    ensures { result ≡ message_in_fields bytes.now }
{
    let kind = kind_numbered(bytes[0])?;
    let numbers = [
        u16::from(bytes[1]),
        u16::from(bytes[2]),
        u16::from(bytes[3]),
        LittleEndian::read_u16(&bytes[4..6]),
    ];
    Some(assembled(kind, numbers, &bytes[RECORD_HEAD_SIZE..]))
}

/// The message of a kind with these numbers, and with the data that its record has behind the head; a kind without data needs none. It is
/// built in place: without a block none is copied.
pub(crate) fn assembled(kind: Kind, numbers: [u16; 4], behind: &[u8]) -> Msg
    requires { has_data kind ≡ true → length behind.now ≡ BLOCK_SIZE }
    ensures { let n = numbers in result
        ≡ assembled kind (slice_index n 0) (slice_index n 1) (slice_index n 2) (slice_index n 3) behind.now }
{
    let [a, v, f, b] = numbers;
    match kind {
        Kind::MakeVol => Msg::MakeVol(a, v),
        Kind::DropVol => Msg::DropVol(a, v),
        Kind::Create => Msg::Create(a, v, f),
        Kind::Delete => Msg::Delete(a, v, f),
        Kind::Seal => Msg::Seal(a, v),
        Kind::Unseal => Msg::Unseal(a, v),
        Kind::Write => {
            let mut content = [0; BLOCK_SIZE];
            content.copy_from_slice(behind);
            Msg::Write(a, v, f, b, Block(content))
        }
        Kind::Punch => Msg::Punch(a, v, f, b),
        Kind::Read => Msg::Read(a, v, f, b),
        Kind::List => Msg::List(a, v),
        Kind::Usage => Msg::Usage(a, v),
        Kind::Summary => Msg::Summary,
        Kind::SetLabel => {
            let mut label = [0; LABEL_SIZE];
            label.copy_from_slice(&behind[..LABEL_SIZE]);
            Msg::SetLabel(a, v, label)
        }
        Kind::Label => Msg::Label(a, v),
    }
}

/// The code of a kind: the first byte of its records.
fn kind_number(kind: Kind) -> u8
    ensures { result ≡ kind_number kind }
{
    match kind {
        Kind::MakeVol => 1,
        Kind::DropVol => 2,
        Kind::Create => 3,
        Kind::Delete => 4,
        Kind::Seal => 5,
        Kind::Unseal => 6,
        Kind::Write => 7,
        Kind::Punch => 8,
        Kind::Read => 9,
        Kind::List => 10,
        Kind::Usage => 11,
        Kind::Summary => 12,
        Kind::SetLabel => 13,
        Kind::Label => 14,
    }
}

/// The kind that has this code.
#[tactic(auto, unfolding(crate::specs::Records::kind_numbered))]
fn kind_numbered(number: u8) -> Option<Kind>
    ensures { result ≡ kind_numbered number }
{
    match number {
        1 => Some(Kind::MakeVol),
        2 => Some(Kind::DropVol),
        3 => Some(Kind::Create),
        4 => Some(Kind::Delete),
        5 => Some(Kind::Seal),
        6 => Some(Kind::Unseal),
        7 => Some(Kind::Write),
        8 => Some(Kind::Punch),
        9 => Some(Kind::Read),
        10 => Some(Kind::List),
        11 => Some(Kind::Usage),
        12 => Some(Kind::Summary),
        13 => Some(Kind::SetLabel),
        14 => Some(Kind::Label),
        _ => None,
    }
}
