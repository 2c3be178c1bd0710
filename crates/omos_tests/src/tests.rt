//! The tests, by subject.

mod fragments;
mod lines;
mod linking;
mod names;
mod plain;
mod tables;

use fragment_read::fragment;
use omos_base::{Bytes, Fault, Row, put_u16, put_u32, put_u64, u16_at, u32_at, u64_at};
use omos_model::ObjectFault;
use omos_outside::{FixedSink, Got, PlainSource, Sink, Source, Took};
use std::test::Fail;

/// The fields of an ELF header's place 24 to 40, as the standard lays out an address and an
/// offset: 0x0000000000400000, then 64.
const FIELDS: [u8; 16] = [0, 0, 0x40, 0, 0, 0, 0, 0, 0x40, 0, 0, 0, 0, 0, 0, 0];

#[test]
fn numbers_stand_with_their_lowest_byte_first(rt: HostRuntime) {
    assert_eq!(rt; u64_at(&FIELDS, 0), 0x0040_0000);
    assert_eq!(rt; u32_at(&FIELDS, 8), 0x40);
    assert_eq!(rt; u16_at(&FIELDS, 1), 0x4000);
    let mut bytes = [0xff; 16];
    put_u64(&mut bytes, 0, 0x0040_0000);
    put_u32(&mut bytes, 8, 0x40);
    put_u16(&mut bytes, 12, 0);
    put_u16(&mut bytes, 14, 0);
    assert_eq!(rt; bytes, FIELDS);
}

#[test]
fn lists_grow_with_ample_memory(rt: HostRuntime) -> Result<(), Fail> {
    let alloc = rt.alloc();
    let mut bytes = Bytes::from_slice(alloc, &FIELDS[..2])?;
    bytes.push_u16(0x40)?;
    bytes.push_u32(0)?;
    bytes.push_u64(0x40)?;
    assert_eq!(rt; bytes.as_slice(), FIELDS.as_slice());
    bytes.push_zeros(3)?;
    assert_eq!(rt; bytes.len(), 19);
    assert_eq!(rt; Bytes::from_vec(bytes.into_vec()).len(), 19);
    let mut row = Row::new(alloc);
    row.push(7u32)?;
    row.push(9)?;
    assert_eq!(rt; row.as_slice(), [7, 9].as_slice());
    assert_eq!(rt; Row::from_vec(row.into_vec()).len(), 2);
    Ok(())
}

#[test]
fn the_plain_forms_in_memory(rt: HostRuntime) -> Result<(), Fail> {
    let alloc = rt.alloc();
    let mut source = PlainSource::new(Bytes::from_slice(alloc, b"abc")?);
    let mut buffer = [0; 2];
    assert_eq!(rt; source.read(&mut buffer), Got::Bytes(2));
    assert_eq!(rt; &buffer, b"ab");
    assert_eq!(rt; source.read(&mut buffer), Got::Bytes(1));
    assert_eq!(rt; source.read(&mut buffer), Got::End);
    let mut sink = FixedSink::new(alloc, 2)?;
    assert_eq!(rt; sink.write(b"abc"), Took::Bytes(2));
    assert_eq!(rt; sink.write(b"c"), Took::Failed);
    assert_eq!(rt; sink.bytes(), b"ab".as_slice());
    Ok(())
}

#[test]
fn files_are_refused_by_their_first_fault(rt: HostRuntime) {
    let header = [0; 64];
    let alloc = rt.alloc();
    assert!(rt;
        matches!(
            fragment(alloc, &header),
            Err(Fault::Refused(ObjectFault::NotElf))
        )
    );
    assert!(rt;
        matches!(
            fragment(alloc, &header[1..]),
            Err(Fault::Refused(ObjectFault::Length))
        )
    );
}
