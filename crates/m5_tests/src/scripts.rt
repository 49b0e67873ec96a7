//! A script of each kind of line, and its copy.

use m5_script::read::read_script;
use std::test::Fail;

const WHOLE: &[u8] = b"sessions 2
steps 1000
store \"k\" \"a\\\"b\\\\\\n\\t\"
event 2 \"w\" \"\"
raw 1 server \"4d4C35\"
order 2.home  1.server
region 200";

#[test]
fn are_copied_whole(rt: HostRuntime) -> Result<(), Fail> {
    let script = read_script(rt.alloc(), WHOLE)?.copy(rt.alloc())?;
    assert_eq!(rt; script.sessions, 2);
    assert_eq!(rt; script.steps, 1_000);
    assert_eq!(rt; script.region, 200);
    assert_eq!(rt; script.pairs.count(), 1);
    for pair in script.pairs.as_slice() {
        assert_eq!(rt; pair.text.bytes(), b"a\"b\\\n\t".as_slice());
    }
    assert_eq!(rt; script.events.count(), 1);
    assert_eq!(rt; script.raws.count(), 1);
    for item in script.raws.as_slice() {
        assert_eq!(rt; item.bytes.bytes(), b"ML5".as_slice());
    }
    assert_eq!(rt; script.order.count(), 2);
    Ok(())
}
