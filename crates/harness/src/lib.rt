//! What the tests of crates that keep data on a device share: trials on a device that fails, stops and crashes at each of its calls.
//!
//! A `Trial` does something on a device in memory. `sweep` makes it again and again: for each call of the device once with that call
//! failing alone, and once for each kind of crash, with the device stopped at that call and then crashed. It opens what is left, and checks
//! whether what a server answers then is allowed. After a crash it also stops that opening at each of its calls, crashes the device a
//! second time and opens it again. What a server should answer comes from the serial server, by `expected`.
#![tactic(auto)]

mod changes_in_range;
mod counting;
mod crashes;
mod expected_answers;
mod opened_device;
mod server;
mod shown;
mod trials;

pub use changes_in_range::are_changes_in_range;
pub use counting::{Counting, Counts};
pub use crashes::{KINDS, MIXED, NEW, OLD, torn};
pub use expected_answers::{Questions, answers_and_replies, expected, messages_of, reply_lines};
pub use opened_device::{OpenedDevice, open_device};
pub use server::{Act, Halt, Server, device_with};
pub use shown::assert_shown;
pub use trials::{Crash, Ended, Progress, Seen, Trial, Wrong, reopen, sweep};
