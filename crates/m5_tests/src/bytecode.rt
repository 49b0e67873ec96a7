//! A code made, spelled and read, and bytes that are no code's.

use m5_bytecode::code::Code;
use m5_bytecode::{CodeEnd, decode, encode, listing};
use m5_machine::blocks::NO_BLOCK;
use m5_machine::link::link;
use m5_machine::listed::TextBytes;
use m5_machine::step::{Instruction, Step};
use std::alloc::Global;
use std::test::*;

#[test]
fn a_block_that_ends_at_once(rt: HostRuntime) -> Result<(), Fail> {
    let mut starts = Vec::new(rt.alloc());
    starts.push(NO_BLOCK)?;
    starts.push(0)?;
    let mut steps = Vec::new(rt.alloc());
    steps.push(Step::Done)?;
    let blocks = link(rt.alloc(), starts, steps)?.ok_or("no blocks")?;
    let code = Code::of(blocks).ok_or("no code")?;
    let bytes = encode(rt.alloc(), &code)?;
    assert_eq!(rt; bytes.bytes(), b"\0\x01\0\x01\0\0\0\x01\x24".as_slice());
    assert_eq!(rt;
        listing(rt.alloc(), &code)?.bytes(),
        b"1: done\n".as_slice()
    );
    Ok(())
}

#[test]
fn an_if_tells_how_long_its_first_body_is(rt: HostRuntime) -> Result<(), Fail> {
    let mut starts = Vec::new(rt.alloc());
    starts.push(0)?;
    let mut text = Vec::new(rt.alloc());
    text.push(b'a')?;
    let mut steps = Vec::new(rt.alloc());
    steps.push(Step::Fill(Instruction::Text(TextBytes::of(text))))?;
    steps.push(Step::Fill(Instruction::Int(-1)))?;
    steps.push(Step::If(1, 0))?;
    steps.push(Step::Ask(5, 1, 2))?;
    steps.push(Step::Send(2, 0, 1))?;
    let blocks = link(rt.alloc(), starts, steps)?.ok_or("no blocks")?;
    let code = Code::of(blocks).ok_or("no code")?;
    let bytes = encode(rt.alloc(), &code)?;
    assert_eq!(rt;
        bytes.bytes(),
        b"\0\x01\0\0\0\0\0\x22\x03\0\0\0\x01a\x02\xff\xff\xff\xff\xff\xff\xff\xff\x20\0\x01\0\0\0\x06\x22\x05\0\x01\0\x02\x23\x02\0\0\0\x01".as_slice()
    );
    assert_eq!(rt;
        listing(rt.alloc(), &code)?.bytes(),
        b"0: text 1 97; int -1; if 1 6; ask 5 1 2; send 2 0 1\n".as_slice()
    );
    Ok(())
}

#[test]
fn a_server_has_no_send_to_a_server(rt: HostRuntime) -> Result<(), Fail> {
    let starts = Vec::new(rt.alloc());
    let mut steps = Vec::new(rt.alloc());
    steps.push(Step::Send(1, 0, 1))?;
    let blocks = link(rt.alloc(), starts, steps)?.ok_or("no blocks")?;
    assert!(rt; Code::of(blocks).is_none());
    Ok(())
}

/// Whether the bytes are a code's.
fn is_code(alloc: Global, bytes: &[u8]) -> Result<bool, Fail> {
    match decode(alloc, bytes) {
        Ok(_) => Ok(true),
        Err(CodeEnd::Bad) => Ok(false),
        Err(CodeEnd::Memory) => Err("memory ran out".into()),
    }
}

/// The code of one block whose body has these bytes.
fn with_body(alloc: Global, body: &[u8]) -> Result<bool, Fail> {
    let mut bytes = Vec::from_slice(alloc, b"\0\x01\0\0")?;
    bytes.extend_from_slice(&((body.len() % 0x1_0000_0000) as u32).to_be_bytes())?;
    bytes.extend_from_slice(body)?;
    is_code(alloc, &bytes)
}

#[test]
fn reads_a_code(rt: HostRuntime) -> Result<(), Fail> {
    let alloc = rt.alloc();
    let code = decode(alloc, b"\0\x01\0\x01\0\0\0\x01\x24")?;
    assert_eq!(rt; listing(alloc, &code)?.bytes(), b"1: done\n".as_slice());
    assert!(rt; is_code(alloc, b"\0\0")?);
    Ok(())
}

#[test]
fn refuses_what_is_no_code(rt: HostRuntime) -> Result<(), Fail> {
    let alloc = rt.alloc();
    let table: [(&str, &[u8]); 15] = [
        ("nothing", b""),
        ("half a count", b"\0"),
        ("bytes behind no block", b"\0\0\0"),
        ("no block", b"\0\x01\0\x01\0\0\0\x01"),
        ("a body shorter than told", b"\0\x01\0\x01\0\0\0\x02\x24"),
        ("a body longer than told", b"\0\x01\0\x01\0\0\0\x01\0\x24"),
        (
            "a length that overflows",
            b"\0\x01\0\x01\xff\xff\xff\xff\x24",
        ),
        ("a byte behind", b"\0\x01\0\x01\0\0\0\x01\x24\0"),
        (
            "labels that fall",
            b"\0\x02\0\x02\0\0\0\x01\x24\0\x01\0\0\0\x01\x24",
        ),
        (
            "a label twice",
            b"\0\x02\0\x02\0\0\0\x01\x24\0\x02\0\0\0\x01\x24",
        ),
        ("a label missing", b"\0\x02\0\x01\0\0\0\x01\x24"),
        ("an unknown byte", b"\0\x01\0\x01\0\0\0\x02\x0f\x24"),
        ("a third truth value", b"\0\x01\0\x01\0\0\0\x03\x01\x02\x24"),
        (
            "a text of a byte 7",
            b"\0\x01\0\x01\0\0\0\x07\x03\0\0\0\x01\x07\x24",
        ),
        (
            "an array of no slots",
            b"\0\x01\0\x01\0\0\0\x04\x04\0\0\x24",
        ),
    ];
    for (name, bytes) in table.iter() {
        assert!(rt; !is_code(alloc, bytes)?, "{name}");
    }
    Ok(())
}

#[test]
fn endings_and_slots_have_limits(rt: HostRuntime) -> Result<(), Fail> {
    let alloc = rt.alloc();
    let mut body = Vec::new(alloc);
    for _ in 1..1000 {
        body.extend_from_slice(b"\x20\0\x01\0\0\0\x01\x24")?;
    }
    body.push(0x24)?;
    assert!(rt; with_body(alloc, &body)?, "a thousand endings open");
    let mut deeper = Vec::from_slice(alloc, b"\x20\0\x01\0\0\0\x01\x24")?;
    deeper.extend_from_slice(&body)?;
    assert!(rt; !with_body(alloc, &deeper)?, "a thousand and one");
    let mut units = Vec::new(alloc);
    units.resize(65534, 0)?;
    units.push(0x24)?;
    assert!(rt; with_body(alloc, &units)?, "65,536 slots");
    let mut more = Vec::new(alloc);
    more.resize(65535, 0)?;
    more.push(0x24)?;
    assert!(rt; !with_body(alloc, &more)?, "65,537 slots");
    Ok(())
}

/// For each byte of the code, whether the bytes with this one in its place are a code.
fn changed(alloc: Global, code: &[u8], byte: u8) -> Result<Vec<bool>, Fail> {
    let mut are_codes = Vec::new(alloc);
    for at in 0..code.len() {
        let mut bytes = Vec::from_slice(alloc, code)?;
        if at < bytes.len() {
            bytes[at] = byte;
        }
        are_codes.push(is_code(alloc, &bytes)?)?;
    }
    Ok(are_codes)
}

#[test]
fn a_changed_byte_and_a_prefix(rt: HostRuntime) -> Result<(), Fail> {
    let alloc = rt.alloc();
    let code = b"\0\x01\0\x01\0\0\0\x01\x24";
    let zeros = changed(alloc, code, 0)?;
    assert_eq!(rt;
        zeros.as_slice(),
        [true, false, true, true, true, true, true, false, false].as_slice()
    );
    let ones = changed(alloc, code, 0xff)?;
    assert_eq!(rt;
        ones.as_slice(),
        [false, false, true, true, false, false, false, false, false].as_slice()
    );
    for count in 0..code.len() {
        assert!(rt; !is_code(alloc, &code[..count])?, "the first {count} bytes");
    }
    Ok(())
}
