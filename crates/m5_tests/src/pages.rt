//! What a page answers after texts and handlers are set.

use m5_page::page::Page;
use m5_terms::text::Text;
use std::test::Fail;

#[test]
fn shows_the_text_that_was_set_last(rt: HostRuntime) -> Result<(), Fail> {
    let alloc = rt.alloc();
    let mut page = Page::make(alloc);
    assert_eq!(rt; page.get_text(b"log"), b"".as_slice());
    page.set_text(Text::of(alloc, b"log")?, Text::of(alloc, b"a")?)?;
    page.set_text(Text::of(alloc, b"name")?, Text::of(alloc, b"b")?)?;
    page.set_text(Text::of(alloc, b"log")?, Text::of(alloc, b"c")?)?;
    assert_eq!(rt; page.get_text(b"log"), b"c".as_slice());
    assert_eq!(rt; page.get_text(b"name"), b"b".as_slice());
    Ok(())
}

#[test]
fn tells_the_handlers_of_an_element_in_order(rt: HostRuntime) -> Result<(), Fail> {
    let alloc = rt.alloc();
    let mut page = Page::make(alloc);
    page.on(Text::of(alloc, b"send")?, 4)?;
    page.on(Text::of(alloc, b"log")?, 0)?;
    page.on(Text::of(alloc, b"send")?, 2)?;
    assert_eq!(rt; page.event(alloc, b"send")?.as_slice(), [4, 2].as_slice());
    assert_eq!(rt; page.event(alloc, b"name")?.count(), 0);
    Ok(())
}
