//! The bytes, keywords and symbols of the lexical form.

ghost use Rattle.std.specs.Prelude.{◌≡◌, ◌<◌, ◌+◌, [], map, length, IfSome};
ghost use Rattle.std.specs.List.{slice_index_or};
ghost use Rattle.m5_lex.specs.Alphabet.{is_blank, is_letter, is_name_byte, keywords, symbols, place_of};

use m5_terms::decimal::is_digit;

const KEYWORDS: [&[u8]; 44] = [
    b"extern", b"val", b"fun", b"main", b"fn", b"rec", b"let", b"in", b"end", b"do", b"put",
    b"leta", b"lets", b"if", b"then", b"else", b"case", b"of", b"inl", b"inr", b"nil", b"from",
    b"get", b"spawn", b"hold", b"here", b"sham", b"fst", b"snd", b"ref", b"str", b"div", b"true",
    b"false", b"at", b"addr", b"list", b"unit", b"bool", b"int", b"string", b"home", b"server",
    b"panel",
];

const SYMBOLS: [&[u8]; 21] = [
    b"(", b")", b"[", b"]", b",", b":", b":=", b"::", b"=", b"==", b"=>", b"->", b"-", b"+", b"*",
    b"^", b"<", b"!", b"|", b"@", b"~",
];

pub(crate) fn is_blank(byte: u8) -> bool
    ensures { result ≡ is_blank byte }
{
    byte == b'\t' || byte == b'\n' || byte == b'\r' || byte == b' '
}

pub(crate) fn is_letter(byte: u8) -> bool
    ensures { result ≡ is_letter byte }
{
    byte >= b'a' && byte <= b'z' || byte >= b'A' && byte <= b'Z'
}

pub(crate) fn is_name_byte(byte: u8) -> bool
    ensures { result ≡ is_name_byte byte }
{
    is_letter(byte) || is_digit(byte) || byte == b'_' || byte == b'\''
}

/// The place of a word in a list of words, from 0.
fn place_in(words: &[&[u8]], word: &[u8]) -> Option<usize>
    ensures place { result ≡ place_of word.now (map (λ w. w.now) words.now) }
    ensures bound { IfSome result (λ i. i < length words.now) }
{
    for (place, other) in words.iter().enumerate() {
        if *other == word {
            return Some(place);
        }
    }
    None
}

/// The place of a keyword, from 0.
#[tactic(auto, unfolding(crate::specs::Alphabet::keywords))]
pub(crate) fn keyword(word: &[u8]) -> Option<u8>
    ensures place { result ≡ place_of word.now keywords }
    ensures bound { IfSome result (λ i. i < length keywords) }
{
    match place_in(&KEYWORDS, word) {
        Some(place) => Some(place as u8),
        None => None,
    }
}

/// The place of a symbol, from 0.
#[tactic(auto, unfolding(crate::specs::Alphabet::symbols))]
pub(crate) fn symbol(sign: &[u8]) -> Option<u8>
    ensures place { result ≡ place_of sign.now symbols }
    ensures bound { IfSome result (λ i. i < length symbols) }
{
    match place_in(&SYMBOLS, sign) {
        Some(place) => Some(place as u8),
        None => None,
    }
}

/// The word at a place in a list of words.
fn word_at(words: &'static [&'static [u8]], place: u8) -> &'static [u8]
    requires { place < length words.now }
    ensures { result.now ≡ slice_index_or (map (λ w. w.now) words.now) place [] }
{
    words[place as usize]
}

/// The keyword at a place.
#[tactic(auto, unfolding(crate::specs::Alphabet::keywords))]
pub(crate) fn keyword_at(place: u8) -> &'static [u8]
    requires { place < length keywords }
    ensures { result.now ≡ slice_index_or keywords place [] }
{
    word_at(&KEYWORDS, place)
}

/// The symbol at a place.
#[tactic(auto, unfolding(crate::specs::Alphabet::symbols))]
pub(crate) fn symbol_at(place: u8) -> &'static [u8]
    requires { place < length symbols }
    ensures { result.now ≡ slice_index_or symbols place [] }
{
    word_at(&SYMBOLS, place)
}
