//! Files of the host, written, cut and found again.

use dmn_outside::{Disk, HostStation};
use std::fs;
use std::test::Fail;

const NAMES: [&str; 3] = ["journal.dmn", "snap1.dmn", "snap2.dmn"];

#[test]
fn files_are_found_again(rt: HostRuntime) -> Result<(), Fail> {
    for name in NAMES {
        let _ = fs::remove_file(&rt, name);
    }
    let mut disk = HostStation::new(rt.clone()?);
    for (file, text) in [(0, "journal"), (1, "one"), (2, "two")] {
        assert_eq!(rt; disk.size(file), Ok(0));
        assert_eq!(rt; disk.write_at(file, 2, text.as_bytes()), Ok(()));
        assert_eq!(rt; disk.sync(file), Ok(()));
    }
    assert_eq!(rt; disk.cut(0, 5), Ok(()));
    assert_eq!(rt; disk.cut(0, 7), Ok(()));
    assert_eq!(rt; disk.write_at(1, 0, b"at"), Ok(()));
    assert_eq!(rt; disk.sync(0), Ok(()));
    let mut again = HostStation::new(rt.clone()?);
    for (file, text) in [(0, "\0\0jou"), (1, "atone"), (2, "\0\0two")] {
        let mut out = [b'-'; 8];
        assert_eq!(rt; again.size(file), Ok(5));
        assert_eq!(rt; again.read_at(file, 0, &mut out), Ok(5));
        assert_eq!(rt; &out[..5], text.as_bytes(), "file {file}");
        assert_eq!(rt; again.read_at(file, 3, &mut out[..1]), Ok(1));
        assert_eq!(rt; again.read_at(file, 5, &mut out), Ok(0));
    }
    for name in NAMES {
        fs::remove_file(&rt, name)?;
    }
    Ok(())
}
