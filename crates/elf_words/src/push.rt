//! Records behind one another in a list of bytes.

ghost use Rattle.std.specs.Prelude.{◌≡◌, ◌++◌, OnOk, OnErr};

use crate::record::Record;
use omos_base::{Bytes, NoMemory};

/// Appends the bytes of a record.
pub fn push_record<R: Record>(bytes: &mut Bytes, value: &R) -> Result<(), NoMemory>
    ensures added { OnOk result (bytes.new ≡ bytes.old ++ R.bytes_of value.now) }
    ensures kept { OnErr result (bytes.new ≡ bytes.old) }
{
    let mut room = [0; 64];
    let (page, _) = room.split_at_mut(R::SIZE);
    value.write(page);
    bytes.push_slice(page)
}
