//! Messages as bytes, before they are written.
ghost use Rattle.std.specs.Prelude.{◌≡◌, ◌*◌, ◌≤◌, length, take};
ghost use Rattle.std.specs.List.{concat, All, AllByRecursion};
ghost use Rattle.message.specs.Records.{record_of, FitsRecord};
ghost use Rattle.oplog.specs.ChangeRecords.{records_of};

use device_map::RECORD_SIZE;
use message::encode;
use protocol::Msg;

/// Writes the record of a message into a place of its size. `FitsRecord`: its aggregate, volume and file are below 256, as each has one
/// byte there.
fn put_record(m: &Msg, place: &mut [u8])
    requires room { FitsRecord m.now }
    requires size { length place.old ≡ RECORD_SIZE }
    ensures { place.new ≡ record_of m.now }
{
    let Some(record) = place.as_mut_array() else {
        unreachable!()
    };
    encode(m, record);
}

/// Puts the records of these messages in a row at the start of `out`.
pub(crate) fn stage(messages: &[Msg], out: &mut [u8])
    requires fit { All FitsRecord messages.now }
    requires room { length messages.now * RECORD_SIZE ≤ length out.old }
    ensures staged { take (length messages.now * RECORD_SIZE) out.new ≡ concat (records_of messages.now) }
    ensures sizes { AllByRecursion (λ r. length r ≡ RECORD_SIZE) (records_of messages.now) }
{
    for (i, m) in messages.iter().enumerate() {
        let at = i * RECORD_SIZE;
        put_record(m, &mut out[at..at + RECORD_SIZE]);
    }
}
