//! The tokens of texts with their places, and the texts that show them.

use m5_lex::{Token, Tokens, lex, show};
use std::alloc::{AllocError, Global};
use std::test::Fail;

/// A text, its tokens in words, and the text that shows them.
const CASES: [(&[u8], &str, &str); 15] = [
    (b"", "end 1:1", ""),
    (b" (* c *) ", "end 1:10", ""),
    (
        b"main = ( (* c *) )",
        "word 3 1:1, sign 8 1:6, sign 0 1:8, sign 1 1:18, end 1:19",
        "main = ( )\n",
    ),
    (
        b"a\n b'_9\r\t\n",
        "name 1 1:1, name 4 2:2, end 3:1",
        "a b'_9\n",
    ),
    (
        b"(* \xff (* \" *) *)panel",
        "word 43 1:16, end 1:21",
        "panel\n",
    ),
    (b"(**)mains", "name 5 1:5, end 1:10", "mains\n"),
    (
        b"9223372036854775807",
        "number 9223372036854775807 1:1, end 1:20",
        "9223372036854775807\n",
    ),
    (
        b"a 00000000000000000000000000012",
        "name 1 1:1, number 12 1:3, end 1:32",
        "a 12\n",
    ),
    (
        b"\"\\\"\\\\\\n\\t(*\"",
        "literal 6 1:1, end 1:13",
        "\"\\\"\\\\\\n\\t(*\"\n",
    ),
    (
        b":::==>->=<",
        "sign 7 1:1, sign 6 1:3, sign 10 1:5, sign 11 1:7, sign 8 1:9, sign 16 1:10, end 1:11",
        ":: := => -> = <\n",
    ),
    (
        b"extern val fun main fn rec let in end do put",
        "word 0 1:1, word 1 1:8, word 2 1:12, word 3 1:16, word 4 1:21, word 5 1:24, word 6 1:28, word 7 1:32, word 8 1:35, word 9 1:39, word 10 1:42, end 1:45",
        "extern val\nfun\nmain fn rec let in end do put\n",
    ),
    (
        b"leta lets if then else case of inl inr nil from get spawn hold here sham fst snd ref str",
        "word 11 1:1, word 12 1:6, word 13 1:11, word 14 1:14, word 15 1:19, word 16 1:24, word 17 1:29, word 18 1:32, word 19 1:36, word 20 1:40, word 21 1:44, word 22 1:49, word 23 1:53, word 24 1:59, word 25 1:64, word 26 1:69, word 27 1:74, word 28 1:78, word 29 1:82, word 30 1:86, end 1:89",
        "leta lets if then else case of inl inr nil from get spawn hold here sham fst snd ref str\n",
    ),
    (
        b"div true false at addr list unit bool int string home server",
        "word 31 1:1, word 32 1:5, word 33 1:10, word 34 1:16, word 35 1:19, word 36 1:24, word 37 1:29, word 38 1:34, word 39 1:39, word 40 1:43, word 41 1:50, word 42 1:55, end 1:61",
        "div true false at addr list unit bool int string home server\n",
    ),
    (
        b"( ) [ ] , : := :: = == => -> - + * ^ < ! | @ ~",
        "sign 0 1:1, sign 1 1:3, sign 2 1:5, sign 3 1:7, sign 4 1:9, sign 5 1:11, sign 6 1:13, sign 7 1:16, sign 8 1:19, sign 9 1:21, sign 10 1:24, sign 11 1:27, sign 12 1:30, sign 13 1:32, sign 14 1:34, sign 15 1:36, sign 16 1:38, sign 17 1:40, sign 18 1:42, sign 19 1:44, sign 20 1:46, end 1:47",
        "( ) [ ] , : := :: = == => -> - + * ^ < ! | @ ~\n",
    ),
    (
        b"0 007 fun f(x:int)=x+1",
        "number 0 1:1, number 7 1:3, word 2 1:7, name 1 1:11, sign 0 1:12, name 1 1:13, sign 5 1:14, word 39 1:15, sign 1 1:18, sign 8 1:19, name 1 1:20, sign 13 1:21, number 1 1:22, end 1:23",
        "0 7\nfun f ( x : int ) = x + 1\n",
    ),
];

/// The tokens with their places, and the ending place.
fn listed(alloc: Global, tokens: &Tokens) -> Result<String, AllocError> {
    let mut all = String::new(alloc);
    for index in 0..tokens.count() {
        let place = tokens.place(index);
        all.push_str(&named(alloc, tokens.at(index))?)?;
        all.push_str(&format!(in alloc; " {}:{}, ", place.line, place.column)?)?;
    }
    let ending = tokens.ending();
    all.push_str(&format!(in alloc; "end {}:{}", ending.line, ending.column)?)?;
    Ok(all)
}

fn named(alloc: Global, token: &Token) -> Result<String, AllocError> {
    match token.copy(alloc)? {
        Token::Name(name) => format!(in alloc; "name {}", name.bytes().len()),
        Token::Number(number) => format!(in alloc; "number {number}"),
        Token::Literal(text) => format!(in alloc; "literal {}", text.bytes().len()),
        Token::Word(place) => format!(in alloc; "word {place}"),
        Token::Sign(place) => format!(in alloc; "sign {place}"),
    }
}

#[test]
fn are_read_and_shown(rt: HostRuntime) -> Result<(), Fail> {
    let alloc = rt.alloc();
    for (text, listing, shown) in CASES {
        if text.len() > 300 {
            return Err("long".into());
        }
        let Ok(tokens) = lex(alloc, text) else {
            return Err(listing.into());
        };
        assert_eq!(rt; listed(alloc, &tokens)?.as_str(), listing);
        assert_eq!(rt; show(alloc, &tokens)?.bytes(), shown.as_bytes());
    }
    Ok(())
}
