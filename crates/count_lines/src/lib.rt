//! Lines of texts and decimal numbers, as `hits 3 stored 2`.
//!
//! Nothing here knows what is counted.
#![tactic(auto)]

ghost use Rattle.std.specs.Prelude.{◌≡◌, ◌++◌, OnOk, decimal};

use itoa::Buffer;
use omos_base::{Bytes, NoMemory};

/// Appends a text and a number in decimal, without leading zeros.
pub fn push_count(line: &mut Bytes, text: &[u8], number: u64) -> Result<(), NoMemory>
    ensures { OnOk result (line.new ≡ line.old ++ text.now ++ decimal number) }
{
    let mut buffer = Buffer::new();
    line.push_slice(text)?;
    line.push_slice(buffer.format(number).as_bytes())
}
