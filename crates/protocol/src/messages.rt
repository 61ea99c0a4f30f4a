//! Messages as values: the kind of each, and its numbers.

ghost use Rattle.std.specs.Prelude.{◌≡◌};
ghost use Rattle.protocol.specs.Messages.{kind, four_numbers};

use crate::{BLOCK_SIZE, LABEL_SIZE};
use affinity::Kind;

/// The content of one block of a file.
#[derive(Clone, Copy, Debug, PartialEq, Eq)]
pub struct Block(pub [u8; BLOCK_SIZE]);

/// A message. Its numbers are, in this order and as far as it has them, an aggregate, a volume of it,
/// a file of that volume and a block of that file.
#[derive(Clone, Copy, Debug, PartialEq, Eq)]
pub enum Msg {
    /// Makes a volume, without files and with a label of zeros.
    MakeVol(u16, u16),
    /// Removes a volume, with its files, their blocks and its label.
    DropVol(u16, u16),
    /// Makes a file, without blocks.
    Create(u16, u16, u16),
    /// Removes a file and its blocks.
    Delete(u16, u16, u16),
    /// Seals a volume: until it is unsealed, each change of it but `seal` and `unseal` is refused.
    Seal(u16, u16),
    /// Unseals a volume.
    Unseal(u16, u16),
    /// Puts a block into a file.
    Write(u16, u16, u16, u16, Block),
    /// Removes a block from a file.
    Punch(u16, u16, u16, u16),
    /// Asks for a block of a file.
    Read(u16, u16, u16, u16),
    /// Asks which files a volume has.
    List(u16, u16),
    /// Asks how much a volume holds, and whether it is sealed.
    Usage(u16, u16),
    /// Asks how much all volumes hold.
    Summary,
    /// Sets the label of a volume.
    SetLabel(u16, u16, [u8; LABEL_SIZE]),
    /// Asks for the label of a volume.
    Label(u16, u16),
}

impl Msg {
    /// What the message asks for.
    pub fn kind(&self) -> Kind
        ensures { result ≡ kind self.now }
    {
        match self {
            Msg::MakeVol(..) => Kind::MakeVol,
            Msg::DropVol(..) => Kind::DropVol,
            Msg::Create(..) => Kind::Create,
            Msg::Delete(..) => Kind::Delete,
            Msg::Seal(..) => Kind::Seal,
            Msg::Unseal(..) => Kind::Unseal,
            Msg::Write(..) => Kind::Write,
            Msg::Punch(..) => Kind::Punch,
            Msg::Read(..) => Kind::Read,
            Msg::List(..) => Kind::List,
            Msg::Usage(..) => Kind::Usage,
            Msg::Summary => Kind::Summary,
            Msg::SetLabel(..) => Kind::SetLabel,
            Msg::Label(..) => Kind::Label,
        }
    }

    /// Its aggregate, volume, file and block, with 0 for each that it doesn't have.
    pub fn numbers(&self) -> [u16; 4]
        ensures { result ≡ four_numbers self.now }
    {
        match *self {
            Msg::Summary => [0, 0, 0, 0],
            Msg::MakeVol(a, v)
            | Msg::DropVol(a, v)
            | Msg::Seal(a, v)
            | Msg::Unseal(a, v)
            | Msg::List(a, v)
            | Msg::Usage(a, v)
            | Msg::SetLabel(a, v, _)
            | Msg::Label(a, v) => [a, v, 0, 0],
            Msg::Create(a, v, f) | Msg::Delete(a, v, f) => [a, v, f, 0],
            Msg::Write(a, v, f, b, _) | Msg::Punch(a, v, f, b) | Msg::Read(a, v, f, b) => {
                [a, v, f, b]
            }
        }
    }
}
