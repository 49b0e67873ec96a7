//! What a store answers after writes and watches.

use m5_keys::keys::Keys;
use m5_keys::watch::Watcher;
use m5_terms::text::Text;
use std::test::Fail;

#[test]
fn reads_what_was_written_last(rt: HostRuntime) -> Result<(), Fail> {
    let alloc = rt.alloc();
    let mut keys = Keys::make(alloc);
    assert_eq!(rt; keys.read(b"k"), None);
    keys.write(Text::of(alloc, b"k")?, Text::of(alloc, b"v")?)?;
    keys.write(Text::of(alloc, b"l")?, Text::of(alloc, b"w")?)?;
    keys.write(Text::of(alloc, b"k")?, Text::of(alloc, b"x")?)?;
    assert_eq!(rt; keys.read(b"k"), Some(b"x".as_slice()));
    assert_eq!(rt; keys.read(b"l"), Some(b"w".as_slice()));
    assert_eq!(rt; keys.read(b""), None);
    Ok(())
}

#[test]
fn tells_the_watchers_of_a_key_in_order(rt: HostRuntime) -> Result<(), Fail> {
    let alloc = rt.alloc();
    let mut keys = Keys::make(alloc);
    let first = Watcher {
        session: 2,
        number: 0,
    };
    let second = Watcher {
        session: 1,
        number: 3,
    };
    keys.watch(Text::of(alloc, b"k")?, first)?;
    keys.watch(Text::of(alloc, b"l")?, first)?;
    keys.watch(Text::of(alloc, b"k")?, second)?;
    let told = keys.watchers(alloc, b"k")?;
    assert_eq!(rt; told.as_slice(), [first, second].as_slice());
    assert_eq!(rt; keys.watchers(alloc, b"m")?.count(), 0);
    Ok(())
}
