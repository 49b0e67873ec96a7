//! Codes printed and read, and texts that are no code's.

use m5_js::js::Js;
use m5_js::{JsEnd, print, read};
use m5_machine::blocks::NO_BLOCK;
use m5_machine::link::link;
use m5_machine::listed::{Operands, TextBytes};
use m5_machine::step::{Instruction, Step};
use m5_terms::text::Text;
use std::alloc::Global;
use std::test::*;

/// The text of the code whose label 1 begins at the first step.
fn printed(alloc: Global, steps: Vec<Step>) -> Result<Text, Fail> {
    let starts = vec![in alloc; NO_BLOCK, 0]?;
    let blocks = link(alloc, starts, steps)?.ok_or("no blocks")?;
    let js = Js::of(blocks).ok_or("no code")?;
    Ok(print(alloc, &js)?)
}

#[test]
fn prints_a_block_that_ends_at_once(rt: HostRuntime) -> Result<(), Fail> {
    let text = printed(rt.alloc(), vec![in rt.alloc(); Step::Done]?)?;
    let line = "const L1 = (e, a) => { return done(); };\n";
    assert_eq!(rt; text.bytes(), line.as_bytes());
    Ok(())
}

#[test]
fn prints_values_and_a_choice(rt: HostRuntime) -> Result<(), Fail> {
    let alloc = rt.alloc();
    let text = TextBytes::of(Vec::from_slice(alloc, b"a\"\n")?);
    let fields = Operands::of(vec![in alloc; 0, 2]?);
    let steps = vec![in alloc;
        Step::Fill(Instruction::Text(text)),
        Step::Fill(Instruction::Int(7)),
        Step::Fill(Instruction::Quo(3, 3)),
        Step::Fill(Instruction::Array(fields)),
        Step::If(1, 0),
        Step::Fill(Instruction::Field(5, 1)),
        Step::Ask(7, 2, 0),
        Step::Fill(Instruction::Same(3, 4)),
        Step::Send(2, 0, 6),
    ]?;
    let text = printed(alloc, steps)?;
    let line =
        "const L1 = (e, a) => { const v0 = \"a\\\"\\n\"; const v1 = 7n; const v2 = BigInt.asIntN(64, v1 / v1); const v3 = [e, v0]; if (a) { const v4 = v3[1]; return ask(\"show\", v0, e); } else { const v4 = v1 === v2; return send(\"panel\", e, v4); } };\n";
    assert_eq!(rt; text.bytes(), line.as_bytes());
    Ok(())
}

/// The first line that is none of a code's, if the text is no code's.
fn bad_line(alloc: Global, text: &[u8]) -> Result<Option<u32>, Fail> {
    if text.len() >= 0xffff_ffff {
        return Err("the text is long".into());
    }
    match read(alloc, text) {
        Ok(_) => Ok(None),
        Err(JsEnd::Bad(place)) => Ok(Some(place.line)),
        Err(JsEnd::Memory) => Err("memory ran out".into()),
    }
}

#[test]
fn reads_what_is_printed(rt: HostRuntime) -> Result<(), Fail> {
    let alloc = rt.alloc();
    let line =
        b"const L1 = (e, a) => { const v0 = \"\\n\"; if (a) { return done(); } else { return go(e, v0); } };\n";
    let js = read(alloc, line)?;
    assert_eq!(rt; print(alloc, &js)?.bytes(), line.as_slice());
    Ok(())
}

#[test]
fn refuses_what_is_no_code(rt: HostRuntime) -> Result<(), Fail> {
    let alloc = rt.alloc();
    let table: [(&str, Option<u32>); 16] = [
        ("", None),
        ("const L1 = (e, a) => { return done(); };\n", None),
        ("const L1 = (e, a) => {  return done(); };\n", Some(1)),
        ("const L1 = (e, a) => { return done(); };", Some(1)),
        ("const L01 = (e, a) => { return done(); };\n", Some(1)),
        ("const L65536 = (e, a) => { return done(); };\n", Some(1)),
        (
            "const L1 = (e, a) => { const v1 = null; return done(); };\n",
            Some(1),
        ),
        (
            "const L1 = (e, a) => { const v0 = -1n; return done(); };\n",
            Some(1),
        ),
        (
            "const L1 = (e, a) => { const v0 = 01n; return done(); };\n",
            Some(1),
        ),
        (
            "const L1 = (e, a) => { const v0 = []; return done(); };\n",
            Some(1),
        ),
        (
            "const L1 = (e, a) => { const v0 = e[65535]; return done(); };\n",
            Some(1),
        ),
        (
            "const L1 = (e, a) => { const v0 = \"\\q\"; return done(); };\n",
            Some(1),
        ),
        (
            "const L1 = (e, a) => { return ask(\"read\", e, a); };\n",
            Some(1),
        ),
        (
            "const L1 = (e, a) => { return done(); };\nconst L1 = (e, a) => { return done(); };\n",
            Some(2),
        ),
        (
            "const L1 = (e, a) => { return done(); };\nconst L0 = (e, a) => { return done(); };\n",
            Some(2),
        ),
        ("const L1 = (e, a) => { return done(); };\n\n", Some(2)),
    ];
    for (text, line) in table.iter() {
        assert_eq!(rt; bad_line(alloc, text.as_bytes())?, *line, "{text}");
    }
    Ok(())
}

/// A line whose endings nest this deep.
fn nested(alloc: Global, depth: usize) -> Result<Vec<u8>, Fail> {
    let mut text = Vec::from_slice(alloc, b"const L0 = (e, a) => { ")?;
    for _ in 1..depth {
        text.extend_from_slice(b"if (a) { return done(); } else { ")?;
    }
    text.extend_from_slice(b"return done(); ")?;
    for _ in 1..depth {
        text.extend_from_slice(b"} ")?;
    }
    text.extend_from_slice(b"};\n")?;
    Ok(text)
}

#[test]
fn endings_nest_at_most_a_thousand_deep(rt: HostRuntime) -> Result<(), Fail> {
    let alloc = rt.alloc();
    assert_eq!(rt; bad_line(alloc, &nested(alloc, 1000)?)?, None);
    assert_eq!(rt; bad_line(alloc, &nested(alloc, 1001)?)?, Some(1));
    Ok(())
}

#[test]
fn no_part_of_a_line_is_one(rt: HostRuntime) -> Result<(), Fail> {
    let alloc = rt.alloc();
    let line = b"const L1 = (e, a) => { const v0 = 7n; return send(\"home\", e, v0); };\n";
    for count in 1..line.len() {
        assert_eq!(rt;
            bad_line(alloc, &line[..count])?,
            Some(1),
            "the first {count} bytes"
        );
    }
    Ok(())
}
