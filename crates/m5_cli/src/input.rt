//! The parts of an input: a program text and, after a dividing line, what follows it, a script text and perhaps a trace.

ghost use Rattle.std.specs.Prelude.{◌≡◌, ◌≤◌, ◌+◌, length};
ghost use Rattle.m5_cli.specs.Input.{after_marks, divider, parts_of};

/// How long the dividing line is, of which two percent signs stand before this rest; 0 where it is none.
fn length_after_marks(rest: &[u8]) -> usize
    ensures value { result ≡ after_marks rest.now }
    ensures within { result ≤ length rest.now + 2 }
{
    match rest {
        [] => 2,
        [b'\n', ..] => 3,
        [b'\r', b'\n', ..] => 4,
        _ => 0,
    }
}

/// The length of the dividing line at the head of a rest, 0 where there is none.
fn divider_length(rest: &[u8]) -> usize
    ensures value { result ≡ divider rest.now }
    ensures within { result ≤ length rest.now }
{
    if rest.len() >= 2 && rest[0] == b'%' && rest[1] == b'%' {
        length_after_marks(&rest[2..])
    } else {
        0
    }
}

/// The program text of an input and what follows its first dividing line.
pub fn split(input: &[u8]) -> (&[u8], &[u8])
    ensures program { result.0.now ≡ (parts_of input.now).program }
    ensures script { result.1.now ≡ (parts_of input.now).script }
    ensures within { length result.0.now ≤ length input.now }
    ensures script_within { length result.1.now ≤ length input.now }
{
    let mut at_start = true;
    for (index, byte) in input.iter().enumerate() {
        if at_start {
            let length = divider_length(&input[index..]);
            if length > 0 {
                return (&input[..index], &input[index + length..]);
            }
        }
        at_start = *byte == b'\n';
    }
    (input, &[])
}
