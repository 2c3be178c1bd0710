//! Names of symbols, paths, shared values and limits.

use omos_base::{Fault, Limits, NameFault, PathFault, PathName, Shared, SymName};
use std::test::Fail;

#[test]
fn paths(rt: HostRuntime) -> Result<(), Fail> {
    let alloc = rt.alloc();
    let long_part = vec![in alloc; b'a'; 65]?;
    let mut part_too_long = b"/".to_vec(alloc)?;
    part_too_long.extend_from_slice(&long_part)?;
    let mut unended = [b'a'; 255];
    unended[0] = b'/';
    unended[60] = b'/';
    unended[120] = b'/';
    unended[180] = b'/';
    unended[240] = b'/';
    unended[254] = b'/';
    let cases: [(&[u8], Option<PathFault>); 9] = [
        (b"/", Some(PathFault::Shape(1))),
        (b"", Some(PathFault::Shape(0))),
        (b"/a//b", Some(PathFault::Shape(3))),
        (b"/a/", Some(PathFault::Shape(3))),
        (b"/a b", Some(PathFault::Shape(2))),
        (
            b"/a/b/c/d/e/f/g/h/i/j/k/l/m/n/o/p/q",
            Some(PathFault::Shape(32)),
        ),
        (&part_too_long, Some(PathFault::Shape(65))),
        (&unended, Some(PathFault::Shape(254))),
        (b"/a/./../B_9+-", None),
    ];
    for (bytes, want) in cases {
        assert_eq!(rt; PathName::read(bytes).err(), want);
    }
    let too_long = vec![in alloc; b'/'; 256]?;
    assert_eq!(rt; PathName::read(&too_long).err(), Some(PathFault::Long));
    Ok(())
}

#[test]
fn symbol_names(rt: HostRuntime) -> Result<(), Fail> {
    let alloc = rt.alloc();
    let longest = vec![in alloc; b'x'; 1025]?;
    let cases: [(&[u8], Option<NameFault>); 8] = [
        (b"", Some(NameFault::Length)),
        (&longest, Some(NameFault::Length)),
        (&longest[..1024], None),
        (b"a b", Some(NameFault::Byte(1))),
        (b"operator()", Some(NameFault::Byte(8))),
        (b"a;", Some(NameFault::Byte(1))),
        (b"\x7f", Some(NameFault::Byte(0))),
        (b"_start\x80\xff", None),
    ];
    for (bytes, want) in cases {
        let fault = match SymName::read(alloc, bytes) {
            Ok(_) => None,
            Err(Fault::Refused(fault)) => Some(fault),
            Err(Fault::NoMemory) => return Ok(assert!(rt; false)),
        };
        assert_eq!(rt; fault, want);
    }
    Ok(())
}

#[test]
fn owners_and_limits(rt: HostRuntime) -> Result<(), Fail> {
    let alloc = rt.alloc();
    let Ok(name) = SymName::read(alloc, b"malloc") else {
        return Ok(assert!(rt; false));
    };
    assert_eq!(rt; name.copy()?.as_bytes(), b"malloc".as_slice());
    let shared = Shared::of(alloc, 7u8)?;
    assert_eq!(rt; *shared.twin()?.get(), 7);
    assert!(rt; Limits::of(0, 64).is_none());
    assert!(rt; Limits::of(65, 64).is_none());
    assert!(rt; Limits::of(4, 15).is_none());
    assert!(rt; Limits::of(4, 65_537).is_none());
    assert!(rt; Limits::of(64, 16).is_some());
    Ok(())
}
