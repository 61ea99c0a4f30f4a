//! A reader that is lent to a `LineReader`, so that its owner knows afterwards what it has left.

ghost use Rattle.std.specs.Prelude.{◌≡◌};
ghost use Rattle.std.specs.Borrow.{GName};

use std::io;
use std::io::Read;
use std::marker::{Brand, PhantomData};

/// Names one loan of a reader.
pub trait Loan {
    ghost name: { GName };
}

/// A call that lends a reader passes `Brand`. The caller's proof chooses the name; this 0 is a stand-in.
impl Loan for Brand {
    ghost name = { 0 };
}

/// A reader that is lent. Its type names the loan, so that a function generic over its reader can't
/// swap in another one: whoever lent it knows what it has left.
///
/// A function that reads lines through a `&mut R` takes a `PhantomData<L>` for a loan `L`, and
/// requires that the `&mut R` has the name of `L`. It makes `LineReader::new(LentReader { reader,
/// of }, buffer)`, takes the reader out of `into_inner` again and gives it back. The caller passes
/// `Brand`, and the caller's proof (`Invariants.antt`) sets the name of the loan to that of the
/// reader that it lends.
#[derive(Drop)]
pub struct LentReader<'a, R, L: Loan> {
    pub reader: &'a mut R,
    pub of: PhantomData<L>,
    pub ghost same: { reader.ghost_name ≡ L.name },
}

impl<R: Read, L: Loan> Read for LentReader<'_, R, L> {
    ghost remaining = { λ lent. R.remaining lent.reader.now };

    fn read(&mut self, buf: &mut [u8]) -> io::Result<usize> {
        self.reader.read(buf)
    }
}
