//! One read onto the end of a list of bytes.

ghost use Rattle.std.specs.Prelude.{◌≡◌, ◌+◌, ◌-◌, ◌<◌, ◌≤◌, ◌^◌, IfOk, Ok, length, drop, take};
ghost use Rattle.std.specs.Prelude.{vec_len};
ghost use Rattle.omos_outside.specs.Faults.{Rose};
ghost use Rattle.omos_outside.specs.Got.{taken, FitsRoom};
ghost use Rattle.omos_outside.specs.Stream.{Gives, IsAtEnd};
ghost use Rattle.stream_reads.specs.More.{HasMore};

use omos_base::NoMemory;
use omos_outside::{Got, Source};

/// Reads into the bytes from this place on, and leaves those before it.
fn read_behind<S: Source>(source: &mut S, bytes: &mut [u8], place: usize) -> Got
    requires { place < length bytes.old }
    ensures room { FitsRoom result (length bytes.old - place) }
    ensures kept { take place bytes.new ≡ take place bytes.old }
    ensures told { Gives (S.told source.old) (S.told source.new)
        (taken result (drop place bytes.new)) }
    ensures end { result ≡ Got.End → IsAtEnd (S.told source.new) }
    ensures later { S.faults source.old ≤ S.faults source.new }
    ensures failed { result ≡ Got.Failed → Rose (S.faults source.old) (S.faults source.new) }
{
    source.read(&mut bytes[place..])
}

/// One read of at most so many bytes, which join those that are there.
pub fn read_more<S: Source>(
    source: &mut S,
    bytes: &mut Vec<u8>,
    room: usize,
) -> Result<Got, NoMemory>
    requires some { 0 < room }
    requires fits { vec_len bytes.old + room < 2 ^ 64 }
    ensures read { IfOk result
        (HasMore (S.told source.old) (S.told source.new) bytes.old.items bytes.new.items room) }
    ensures later { S.faults source.old ≤ S.faults source.new }
    ensures failed { result ≡ Ok Got.Failed → Rose (S.faults source.old) (S.faults source.new) }
{
    let place = bytes.len();
    bytes.resize(place + room, 0)?;
    let got = read_behind(source, bytes, place);
    match got {
        Got::Bytes(count) => bytes.truncate(place + count),
        Got::End | Got::Failed => bytes.truncate(place),
    }
    Ok(got)
}
