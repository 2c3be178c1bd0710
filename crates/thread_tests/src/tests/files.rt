//! Files in memory.

use omos_base::{Bytes, Row};
use omos_files::{FileBox, FileRead, FileWrote, MemoryFiles};
use std::test::Fail;

#[test]
fn files_in_memory(rt: HostRuntime) -> Result<(), Fail> {
    let alloc = rt.alloc();
    let mut fails = Row::new(alloc);
    fails.push(4u32)?;
    fails.push(6)?;
    let mut named = Row::new(alloc);
    named.push((
        Bytes::from_slice(alloc, b"a")?,
        Bytes::from_slice(alloc, b"four")?,
    ))?;
    let mut files = MemoryFiles::new(alloc, named, fails);
    let FileRead::Whole(bytes) = files.read_all("a", 4) else {
        return Err(Fail::from(omos_base::NoMemory));
    };
    assert_eq!(rt; bytes.as_slice(), b"four".as_slice());
    assert!(rt; matches!(files.read_all("a", 3), FileRead::TooLong));
    assert!(rt; matches!(files.read_all("b", 4), FileRead::Failed));
    assert!(rt; matches!(files.read_all("a", 4), FileRead::Failed));
    assert_eq!(rt; files.write_all("b", b"new"), FileWrote::Done);
    assert_eq!(rt; files.write_all("b", b"newer"), FileWrote::Failed);
    assert!(rt; matches!(files.read_all("b", 2), FileRead::TooLong));
    Ok(())
}
