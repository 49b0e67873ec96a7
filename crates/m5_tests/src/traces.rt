//! An entry and the ends that no run of the program comes to, as text.

use m5_script::trace_text;
use m5_terms::ask::{Act, Cause, End, Entries, Entry, History};
use m5_terms::types::World;
use std::test::Fail;

#[test]
fn end_as_their_histories(rt: HostRuntime) -> Result<(), Fail> {
    let alloc = rt.alloc();
    let mut entries = Entries::make(alloc);
    entries.push(Entry {
        session: 3,
        world: World::Home,
        act: Act::Stop(Cause::Table),
    })?;
    let stopped = History {
        entries,
        end: End::Stopped(4_294_967_295),
    };
    let text = trace_text(alloc, &stopped)?;
    assert_eq!(rt;
        text.bytes(),
        b"3 home stop table\nstopped 4294967295\n".as_slice()
    );
    let wrong = History {
        entries: Entries::make(alloc),
        end: End::Wrong(4_294_967_295, World::Server, 65_535),
    };
    let text = trace_text(alloc, &wrong)?;
    assert_eq!(rt; text.bytes(), b"wrong 4294967295 server 65535\n".as_slice());
    Ok(())
}
