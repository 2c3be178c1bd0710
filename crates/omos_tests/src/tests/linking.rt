//! The linker as a library.

use super::plain::JUMP;
use link_example::{Failure, Published, link_two};
use omos_base::{Fault, PathName};
use omos_model::BpFault;
use std::test::Fail;

/// The code of JUMP, twice.
const JUMPS: [u8; 10] = [0xe9, 0xfb, 0xff, 0xff, 0xff, 0xe9, 0xfb, 0xff, 0xff, 0xff];

#[test]
fn two_objects_and_a_blueprint(rt: HostRuntime) -> Result<(), Fail> {
    let alloc = rt.alloc();
    let (Ok(a), Ok(b), Ok(m)) = (
        PathName::read(b"/a"),
        PathName::read(b"/b"),
        PathName::read(b"/m"),
    ) else {
        return Ok(assert!(rt; false));
    };
    let first = Published {
        path: &a,
        content: &JUMP,
    };
    let second = Published { path: &b, ..first };
    let third = Published {
        path: &m,
        content: b"(image (merge /a (hide _start /b)))",
    };
    match link_two(alloc, first, second, third) {
        Ok(image) => {
            assert_eq!(rt; image.bytes().len(), 8_192);
            assert!(rt; image.bytes().get(4_096..4_106) == Some(JUMPS.as_slice()));
        }
        Err(_) => assert!(rt; false),
    }
    let unended = Published {
        content: b"(image /a",
        ..third
    };
    assert!(rt;
        matches!(
            link_two(alloc, first, second, unended),
            Err(Fault::Refused(Failure::Text(BpFault::Shape(9))))
        )
    );
    Ok(())
}
