//! Lines of refusals that no program prints yet, as docs/FORMATS.md shows them.

use omos_base::PathFault;
use omos_model::{BpFault, Refusal};
use refusal_lines::{link_line, path_line, text_line};
use std::test::Fail;

#[test]
fn refusals_have_their_lines(rt: HostRuntime) -> Result<(), Fail> {
    let path = path_line(PathFault::Shape(3));
    assert_eq!(rt; path.as_slice(), b"refused P2 3\n".as_slice());
    let text = text_line(BpFault::Range(14));
    assert_eq!(rt; text.as_slice(), b"refused B6 14\n".as_slice());
    let room = Refusal::NoRoom {
        pages: 1,
        lo: 65_536,
        hi: 69_632,
    };
    let link = link_line(&room);
    assert_eq!(rt; link.as_slice(), b"refused L12 1 65536 69632\n".as_slice());
    Ok(())
}
