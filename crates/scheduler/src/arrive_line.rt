//! Messages that arrive by the lines that encode them.

ghost use Rattle.std.specs.Prelude.{◌≡◌};
ghost use Rattle.protocol.specs.Grammar.{message_of};
ghost use Rattle.scheduler.specs.Calls.{ArrivesByLine};

use crate::Core;
use affinity::Kind;
use disk::Disk;
use histories::ArriveRefusal;
use message::{Head, decode_block, head_of_line};
use protocol::{BLOCK_SIZE, Block, Msg};

impl<D: Disk> Core<D> {
    /// Takes in the message that a line (without its newline) encodes, and gives it the next ticket, as `arrive` does. `None` if the line
    /// is no message; then nothing changes. A `write` is built in place: its block is copied once, into its slot. So is a `read`, the
    /// commonest message beside it, since a `Msg` that is handed on is copied with room for a block.
    pub fn arrive_line(&mut self, line: &[u8]) -> Result<Option<u64>, ArriveRefusal>
        ensures arrives { ArrivesByLine self.old self.new (message_of line.now) result }
        ensures geometry { self.new.geometry ≡ self.old.geometry }
        ensures untouched { self.new.medium ≡ self.old.medium }
    {
        // The head is what the line is, its data not decoded: `digits` are the hex digits of a block, if they are that.
        match head_of_line(line) {
            Head::Writes(numbers, digits) => {
                let mut content = Block([0; BLOCK_SIZE]);
                if decode_block(digits, &mut content).is_none() {
                    return Ok(None);
                }
                let [a, v, f, b] = numbers;
                let message = Msg::Write(a, v, f, b, content);
                self.arrive(&message).map(Some)
            }
            Head::WithoutData(Kind::Read, numbers) => {
                let [a, v, f, b] = numbers;
                let message = Msg::Read(a, v, f, b);
                self.arrive(&message).map(Some)
            }
            head => match &head.message() {
                Some(message) => self.arrive(message).map(Some),
                None => Ok(None),
            },
        }
    }
}
