//! The lines of refused program texts and scripts, and the statuses of faults.

ghost use Rattle.std.specs.Prelude.{◌≡◌, ◌++◌, IfOk, OnOk};
ghost use Rattle.m5_cli.specs.Refusal.{kind_word, fault_word, place_words, refusal_line, line_kind_word, script_line, status_of};

use crate::status::Status;
use m5_elaborate::end::Kind;
use m5_front::refusal::{Fault, Refusal};
use m5_lex::Place;
use m5_script::reading::LineKind;
use m5_terms::decimal::put_number;
use m5_terms::text::Text;
use std::alloc::{AllocError, Global};

/// Adds the word of a check that failed.
fn put_kind(out: &mut Vec<u8>, kind: Kind) -> Result<(), AllocError>
    ensures { OnOk result (out.new.items ≡ out.old.items ++ kind_word kind) }
{
    match kind {
        Kind::WrongWorld => out.extend_from_slice(b"WrongWorld"),
        Kind::NotMobile => out.extend_from_slice(b"NotMobile"),
        Kind::Mismatch => out.extend_from_slice(b"Mismatch"),
        Kind::NotFunction => out.extend_from_slice(b"NotFunction"),
        Kind::NotPair => out.extend_from_slice(b"NotPair"),
        Kind::NotSum => out.extend_from_slice(b"NotSum"),
        Kind::NotList => out.extend_from_slice(b"NotList"),
        Kind::NotCell => out.extend_from_slice(b"NotCell"),
        Kind::NotAt => out.extend_from_slice(b"NotAt"),
        Kind::NotSham => out.extend_from_slice(b"NotSham"),
        Kind::NotGeneric => out.extend_from_slice(b"NotGeneric"),
        Kind::TooLarge => out.extend_from_slice(b"TooLarge"),
    }
}

/// Adds the word of a fault.
fn put_fault(out: &mut Vec<u8>, fault: Fault) -> Result<(), AllocError>
    ensures { OnOk result (out.new.items ≡ out.old.items ++ fault_word fault) }
{
    match fault {
        Fault::Byte => out.extend_from_slice(b"byte"),
        Fault::Number => out.extend_from_slice(b"number"),
        Fault::Syntax => out.extend_from_slice(b"syntax"),
        Fault::Deep => out.extend_from_slice(b"deep"),
        Fault::TooMany => out.extend_from_slice(b"TooMany"),
        Fault::Unbound => out.extend_from_slice(b"Unbound"),
        Fault::Repeated => out.extend_from_slice(b"Repeated"),
        Fault::BadExtern => out.extend_from_slice(b"BadExtern"),
        Fault::Types(kind) => put_kind(out, kind),
    }
}

/// Adds line and column.
pub(crate) fn put_place(alloc: Global, out: &mut Vec<u8>, place: Place) -> Result<(), AllocError>
    ensures { OnOk result (out.new.items ≡ out.old.items ++ place_words place) }
{
    put_number(alloc, out, u64::from(place.line))?;
    out.push(b':')?;
    put_number(alloc, out, u64::from(place.column))
}

/// The line of a refusal: its fault and its place.
pub(crate) fn refusal_text(alloc: Global, refusal: Refusal) -> Result<Text, AllocError>
    ensures { IfOk result (λ text. text ≡ refusal_line refusal) }
{
    let mut out = Vec::new(alloc);
    out.extend_from_slice(b"refused ")?;
    put_fault(&mut out, refusal.fault)?;
    out.push(b' ')?;
    put_place(alloc, &mut out, refusal.place)?;
    out.push(b'\n')?;
    Text::of(alloc, out.as_slice())
}

/// Adds the word of a bad line's kind.
fn put_line_kind(out: &mut Vec<u8>, kind: LineKind) -> Result<(), AllocError>
    ensures { OnOk result (out.new.items ≡ out.old.items ++ line_kind_word kind) }
{
    match kind {
        LineKind::Syntax => out.extend_from_slice(b"syntax"),
        LineKind::Late => out.extend_from_slice(b"late"),
        LineKind::Again => out.extend_from_slice(b"again"),
        LineKind::Range => out.extend_from_slice(b"range"),
        LineKind::Sealed => out.extend_from_slice(b"sealed"),
        LineKind::Many => out.extend_from_slice(b"many"),
    }
}

/// The line of a refused script: its first bad line and that line's kind.
pub(crate) fn script_text(alloc: Global, number: u32, kind: LineKind) -> Result<Text, AllocError>
    ensures { IfOk result (λ text. text ≡ script_line number kind) }
{
    let mut out = Vec::new(alloc);
    out.extend_from_slice(b"refused script ")?;
    put_number(alloc, &mut out, u64::from(number))?;
    out.push(b' ')?;
    put_line_kind(&mut out, kind)?;
    out.push(b'\n')?;
    Text::of(alloc, out.as_slice())
}

/// The status of a fault.
pub(crate) fn fault_status(fault: Fault) -> Status
    ensures { result ≡ status_of fault }
{
    match fault {
        Fault::Byte | Fault::Number | Fault::Syntax | Fault::Deep => Status::BadText,
        Fault::TooMany | Fault::Unbound | Fault::Repeated | Fault::BadExtern | Fault::Types(_) =>
            Status::BadTypes,
    }
}
