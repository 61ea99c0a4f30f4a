//! A server for tests: a tree and a journal, without the core.
ghost use Rattle.std.specs.Prelude.{◌≡◌};
ghost use Rattle.std.proofs.Props.{props};
ghost use Rattle.parcel.specs.Tree.{IsWholeTree};

use crate::{Counting, Counts, Questions, Wrong, are_changes_in_range, reply_lines};
use affinity::{Geometry, is_in_range};
use checkpoint::{Journal, OpenFault, device_len, format, open};
use disk::{Disk, MemDisk};
use oplog::LogFault;
use parcel::{Tree, step};
use protocol::{Msg, Reply};
use std::alloc::{AllocError, Global};

/// What is done to a server.
#[derive(Clone, Copy, Drop)]
pub enum Act {
    /// These changes are carried out, and logged in one batch.
    Log(&'static [&'static str]),
    Point,
    Cut,

    /// One piece of a cut is written.
    Piece,

    /// The pieces that are left of a cut are written, and the cut is ended.
    End,
}

impl Act {
    /// The lines of its changes.
    pub fn changes(&self) -> &'static [&'static str] {
        match self {
            Act::Log(lines) => lines,
            _ => &[],
        }
    }
}

/// Why a server doesn't do what it was asked.
#[derive(Clone, Copy, Debug, PartialEq, Eq)]
pub enum Halt {
    /// A condition of the call doesn't hold: a message is no change in range or isn't done, the log has no room, a cut is in progress or
    /// isn't, or has pieces left, or the device failed before.
    Unfit,

    /// The call of the journal answered this.
    Failed(LogFault),
}

/// Turns a result of the journal into one of this server.
fn halted<T>(answer: Result<T, LogFault>) -> Result<T, Halt> {
    match answer {
        Ok(value) => Ok(value),
        Err(fault) => Err(Halt::Failed(fault)),
    }
}

/// A server for tests, in place of the core: a tree, which is the state, and a journal. It runs messages one after the other.
#[derive(Drop)]
pub struct Server<D: Disk> {
    journal: Journal<Counting<D>>,
    tree: Tree,
    // The tree is whole: no part of it is lent. What follows `by` is for the prover alone.
    ghost whole: { IsWholeTree tree } by { Prim.hlevel props },
    ghost same: { tree.geometry ≡ journal.geometry },
}

impl<D: Disk> Server<D> {
    /// Opens a device; where it is refused, the device and why.
    pub fn open(alloc: Global, device: D) -> Result<Server<D>, (D, OpenFault)> {
        match open(alloc, Counting::new(device)) {
            Ok((journal, tree)) => Ok(Server { journal, tree }),
            Err(e) => Err((e.disk.into_inner(), e.fault)),
        }
    }

    /// Carries these changes out, and logs them in one batch. After an error the server is of no more use: its tree may have changes that
    /// aren't in the log.
    pub fn log(&mut self, messages: &[Msg]) -> Result<(), Halt> {
        let g = self.journal.geometry();
        let is_fit = are_changes_in_range(&g, messages) && messages.len() <= self.journal.room();
        if !is_fit || !carry_out(&mut self.tree, messages) || self.journal.failed() {
            return Err(Halt::Unfit);
        }
        halted(self.journal.log(messages))
    }

    /// Makes a point: a checkpoint in one call. `Unfit` while a cut is in progress.
    pub fn point(&mut self) -> Result<(), Halt> {
        if self.journal.failed() || self.journal.pieces_left().is_some() {
            return Err(Halt::Unfit);
        }
        halted(self.journal.point(&self.tree))
    }

    /// Begins a cut.
    pub fn cut(&mut self) -> Result<(), Halt> {
        if self.journal.failed() || self.journal.pieces_left().is_some() {
            return Err(Halt::Unfit);
        }
        halted(self.journal.cut(&self.tree))
    }

    /// Writes a piece of a cut, and gives how many are left.
    pub fn piece(&mut self) -> Result<usize, Halt> {
        if self.journal.failed() || self.journal.pieces_left().is_none() {
            return Err(Halt::Unfit);
        }
        halted(self.journal.piece())
    }

    /// Ends a cut of which no piece is left.
    pub fn flip(&mut self) -> Result<(), Halt> {
        if self.journal.failed() || self.journal.pieces_left() != Some(0) {
            return Err(Halt::Unfit);
        }
        halted(self.journal.flip())
    }

    /// Writes what is left of a cut, and ends it.
    pub fn end(&mut self) -> Result<(), Halt> {
        let Some(pieces_left) = self.journal.pieces_left() else {
            return Err(Halt::Unfit);
        };
        for _ in 0..pieces_left {
            self.piece()?;
        }
        self.flip()
    }

    /// Does one act; the messages are those of its changes.
    pub fn act(&mut self, act: &Act, messages: &[Msg]) -> Result<(), Halt> {
        match act {
            Act::Log(_) => self.log(messages),
            Act::Point => self.point(),
            Act::Cut => self.cut(),
            Act::Piece => {
                self.piece()?;
                Ok(())
            }
            Act::End => self.end(),
        }
    }

    /// How many records can still be logged.
    pub fn room(&self) -> usize {
        self.journal.room()
    }

    /// How many pieces of a cut are left, while one is in progress.
    pub fn pieces_left(&self) -> Option<usize> {
        self.journal.pieces_left()
    }

    /// Whether the device has failed in a call.
    pub fn failed(&self) -> bool {
        self.journal.failed()
    }

    /// How often the device was called, by the opening and since.
    pub fn counts(&self) -> Counts {
        self.journal.disk().counts()
    }

    /// The reply lines to these questions.
    pub fn reply_lines(
        &mut self,
        alloc: Global,
        questions: &Questions,
    ) -> Result<Vec<u8>, AllocError> {
        reply_lines(alloc, &mut self.tree, questions)
    }

    /// The device, and how often it was called, by the opening and since.
    pub fn into_device(self) -> (D, Counts) {
        let device = self.journal.into_disk();
        let counts = device.counts();
        (device.into_inner(), counts)
    }
}

/// Runs these messages on the whole tree, each by `step`, which gives its reply, up to the first that is out of range, or whose reply isn't
/// `done`. Returns whether there was none such.
fn carry_out(tree: &mut Tree, messages: &[Msg]) -> bool
    requires whole { IsWholeTree tree.old }
    ensures whole { IsWholeTree tree.new }
    ensures geometry { tree.new.geometry ≡ tree.old.geometry }
{
    let g = tree.geometry();
    for m in messages {
        if !is_in_range(&g, m.kind(), m.numbers()) || step(tree, *m) != Reply::Done {
            return false;
        }
    }
    true
}

/// Sets bytes. Each patch is an offset and a byte; one past the end does nothing.
fn set(bytes: &mut [u8], patches: &[(usize, u8)]) {
    for (at, byte) in patches {
        if let Some(there) = bytes.get_mut(*at) {
            *there = *byte;
        }
    }
}

/// A device that was formatted. In memory, and as long as its geometry asks, only a want of memory can prevent that.
fn formatted(alloc: Global, g: Geometry) -> Result<MemDisk, Wrong> {
    let disk = MemDisk::new(alloc, device_len(&g))?;
    match format(alloc, disk, g) {
        Ok(disk) => Ok(disk),
        Err(_) => Err(Wrong::OutOfMemory),
    }
}

/// A device that was formatted with the geometry of these numbers (aggregates, volumes, stripes, width, files, blocks, quota, and how many
/// records a half of the log takes), and in which bytes were set after that. Each patch is an offset and a byte. `Unfit` where there is no
/// such geometry.
pub fn device_with(
    alloc: Global,
    numbers: [u16; 8],
    patches: &[(usize, u8)],
) -> Result<MemDisk, Wrong> {
    let Ok(g) = Geometry::new(numbers) else {
        return Err(Wrong::Unfit);
    };
    let mut bytes = formatted(alloc, g)?.bytes().to_vec(alloc)?;
    set(&mut bytes, patches);
    Ok(MemDisk::of_bytes(alloc, bytes)?)
}
