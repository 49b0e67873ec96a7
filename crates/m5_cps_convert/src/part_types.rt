//! The numbers of parts of types.

ghost use Rattle.std.specs.Prelude.{◌≡◌};
ghost use Rattle.m5_cps.specs.TypeParts.{first_of, second_of, result_of, content_of, place_of};
ghost use Rattle.m5_cps.specs.TypesByNumber.{type_in};
ghost use Rattle.m5_cps_convert.specs.code.Types.{IsPart};
ghost use Rattle.m5_cps_convert.specs.code.Programs.{AreParts};

use m5_cps::types::{TypeRow, Types};
use m5_terms::types::World;

/// The first type of a product or a sum; of another type itself.
pub(crate) fn first_of(types: &Types, number: usize) -> usize
    ensures { IsPart types.now number first_of result }
{
    match types.row(number) {
        TypeRow::Product(a, _) | TypeRow::Sum(a, _) => a,
        _ => number,
    }
}

/// The second type of a product or a sum; of another type itself.
pub(crate) fn second_of(types: &Types, number: usize) -> usize
    ensures { IsPart types.now number second_of result }
{
    match types.row(number) {
        TypeRow::Product(_, b) | TypeRow::Sum(_, b) => b,
        _ => number,
    }
}

/// What a function gives.
pub(crate) fn result_of(types: &Types, number: usize) -> usize
    ensures { IsPart types.now number result_of result }
{
    match types.row(number) {
        TypeRow::Function(_, b) => b,
        _ => number,
    }
}

/// What is in a cell, a list or a sham, or held.
pub(crate) fn content_of(types: &Types, number: usize) -> usize
    ensures { IsPart types.now number content_of result }
{
    match types.row(number) {
        TypeRow::Cell(a) | TypeRow::List(a) | TypeRow::Sham(a) | TypeRow::At(a, _) => a,
        _ => number,
    }
}

/// The world of an address, or of what is held.
pub(crate) fn place_of(types: &Types, number: usize) -> World
    ensures { result ≡ place_of (type_in types.now number) }
{
    match types.row(number) {
        TypeRow::Address(world) | TypeRow::At(_, world) => world,
        _ => World::Any,
    }
}

/// The numbers of what a function takes and gives.
#[derive(Clone, Copy)]
pub struct FunctionParts {
    pub argument: usize,
    pub result: usize,
}

/// What a function takes and gives; of another type itself.
pub(crate) fn function_parts(types: &Types, number: usize) -> FunctionParts
    ensures { AreParts types.now number result }
{
    match types.row(number) {
        TypeRow::Function(argument, result) => FunctionParts { argument, result },
        _ => FunctionParts {
            argument: number,
            result: number,
        },
    }
}
