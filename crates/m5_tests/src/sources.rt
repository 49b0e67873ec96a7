//! Reading and writing in pieces, with ample memory and with failures at chosen calls.

use m5_base::bytes::{ReadEnd, read_all, write_all};
use m5_base::sink::MemSink;
use m5_base::source::MemSource;
use std::test::Fail;

#[test]
fn reads_whole_or_says_why(rt: HostRuntime) -> Result<(), Fail> {
    let alloc = rt.alloc();
    let mut source = MemSource::new(alloc, b"abcdefg", 3, &[])?;
    let Ok(all) = read_all(alloc, &mut source, 7) else {
        return Err("not read".into());
    };
    assert_eq!(rt; all.as_slice(), b"abcdefg".as_slice());
    let mut long = MemSource::new(alloc, b"abcdefg", 3, &[])?;
    assert!(rt; matches!(read_all(alloc, &mut long, 6), Err(ReadEnd::TooLong)));
    let mut broken = MemSource::new(alloc, b"abcdefg", 3, &[2])?;
    assert!(rt; matches!(read_all(alloc, &mut broken, 7), Err(ReadEnd::Failed)));
    Ok(())
}

#[test]
fn writes_all_or_a_prefix(rt: HostRuntime) -> Result<(), Fail> {
    let alloc = rt.alloc();
    let mut sink = MemSink::new(alloc, 7, 3, &[])?;
    assert!(rt; write_all(&mut sink, b"abcdefg").is_ok());
    assert_eq!(rt; sink.held(), b"abcdefg".as_slice());
    let mut broken = MemSink::new(alloc, 7, 3, &[2])?;
    assert!(rt; write_all(&mut broken, b"abcdefg").is_err());
    assert_eq!(rt; broken.held(), b"abc".as_slice());
    let mut small = MemSink::new(alloc, 5, 3, &[])?;
    assert!(rt; write_all(&mut small, b"abcdefg").is_err());
    assert_eq!(rt; small.held(), b"abcde".as_slice());
    Ok(())
}
