//! Functions: their types, their parameters, and the slots with which their blocks begin.

ghost use Rattle.std.specs.Prelude.{IfOk};
ghost use Rattle.m5_terms.specs.Opened.{viewed_unary};
ghost use Rattle.m5_cps_convert.specs.code.Functions.{IsFunction, IsHead, IsSigned};

use crate::lets::bound;
use crate::types::{add_row, add_type};
use crate::walk::{Around, Kind, Known, Walk, next_number};
use m5_cps::types::{TypeRow, Types};
use m5_terms::opened::UnaryView;
use m5_terms::table::Binding;
use std::alloc::AllocError;

/// What a function gives, and its own type.
#[derive(Clone, Copy)]
pub struct Signature {
    pub result: usize,
    pub whole: usize,
}

/// A function before its body: its parameter's type, its signature where that is written, what is
/// bound, the slot of its continuation, and how many slots are filled where its block begins.
#[derive(Drop)]
pub struct Head {
    pub argument: usize,
    pub written: Option<Signature>,
    pub binding: Binding<Known>,
    pub continuation: u32,
    pub filled: u32,
}

/// A function's head; the function itself gets the next slot.
pub(crate) fn head_of(
    walk: &mut Walk,
    around: Around,
    filled: u32,
    form: &UnaryView<'_>,
) -> Result<Head, AllocError>
    requires { IsFunction (viewed_unary form.now) }
    ensures { IfOk result (IsHead walk.old walk.new around filled (viewed_unary form.now)) }
{
    let slot = next_number(filled)?;
    let continuation = next_number(slot)?;
    let first = next_number(continuation)?;
    match form {
        UnaryView::Fn(parameter, ty) => {
            let argument = add_type(&mut walk.types, ty)?;
            Ok(Head {
                argument,
                written: None,
                binding: Binding::One(
                    *parameter as usize,
                    bound(around, Kind::Local, slot, argument),
                ),
                continuation,
                filled: first,
            })
        }
        UnaryView::Rec(function, parameter, ty, codomain) => {
            let argument = add_type(&mut walk.types, ty)?;
            let result = add_type(&mut walk.types, codomain)?;
            let whole = add_row(&mut walk.types, TypeRow::Function(argument, result))?;
            Ok(Head {
                argument,
                written: Some(Signature { result, whole }),
                binding: Binding::Two(
                    *parameter as usize,
                    bound(around, Kind::Local, slot, argument),
                    *function as usize,
                    bound(around, Kind::Local, filled, whole),
                ),
                continuation,
                filled: first,
            })
        }
        _ => unreachable!(),
    }
}

/// The written signature, or that of a function from the argument to what its body gives.
pub(crate) fn signature_of(
    types: &mut Types,
    argument: usize,
    written: Option<Signature>,
    body: usize,
) -> Result<Signature, AllocError>
    ensures { IfOk result (IsSigned types.old types.new argument written body) }
{
    match written {
        Some(signature) => Ok(signature),
        None => {
            let whole = add_row(types, TypeRow::Function(argument, body))?;
            Ok(Signature {
                result: body,
                whole,
            })
        }
    }
}
