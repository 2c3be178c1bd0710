//! The table of an object.

use super::fragments::exports;
use module_table::Table;
use omos_base::{Row, Shared};
use omos_model::{Entry, Fragment};
use seeded_hash::Seed;
use std::test::Fail;

#[test]
fn names_in_the_order_of_bytes(rt: HostRuntime) -> Result<(), Fail> {
    let alloc = rt.alloc();
    let exports = exports(alloc, "malloc", "free")?;
    let Ok(fragment) = Fragment::of(alloc, Row::new(alloc), exports, Row::new(alloc)) else {
        return Ok(assert!(rt; false));
    };
    let object = Shared::of(alloc, Entry::Object(fragment))?;
    let names = Table::leaf(alloc, Seed::known(0), 0, object)?.names()?;
    match names.as_slice() {
        [first, second] => {
            assert_eq!(rt; first.as_bytes(), b"free".as_slice());
            assert_eq!(rt; second.as_bytes(), b"malloc".as_slice());
        }
        _ => assert!(rt; false),
    }
    Ok(())
}
