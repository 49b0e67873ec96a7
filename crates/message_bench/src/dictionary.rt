//! The dictionaries by which the messages are read: a type of each kind, and labels over them.

use m5_dictionary::dicts::Dicts;
use m5_dictionary::label::Label;
use m5_dictionary::line::TypeLine;
use m5_terms::types::World;
use std::alloc::{AllocError, Global};

/// Types 0 to 11, and labels 0 to 6.
pub fn dictionary(alloc: Global) -> Result<Option<Dicts>, AllocError> {
    let types = vec![in alloc;
        TypeLine::Unit,
        TypeLine::Fun(0),
        TypeLine::Bool,
        TypeLine::Int,
        TypeLine::Text,
        TypeLine::Pair(4, 4),
        TypeLine::Sum(0, 4),
        TypeLine::List(3),
        TypeLine::Cell,
        TypeLine::Addr(World::Home),
        TypeLine::Fun(6),
        TypeLine::Fun(5),
    ]?;
    let mut labels = Vec::new(alloc);
    let texts = vec![in alloc; 4, 4]?;
    labels.push(Label::of(World::Server, 0, texts))?;
    let all = vec![in alloc; 2, 3, 4, 5, 6, 7, 8, 9, 0, 1]?;
    labels.push(Label::of(World::Any, 6, all))?;
    labels.push(Label::of(World::Home, 0, Vec::new(alloc)))?;
    let list = vec![in alloc; 7]?;
    labels.push(Label::of(World::Server, 0, list))?;
    labels.push(Label::of(World::Panel, 0, Vec::new(alloc)))?;
    labels.push(Label::of(World::Server, 0, Vec::new(alloc)))?;
    let functions = vec![in alloc; 10, 1]?;
    labels.push(Label::of(World::Server, 5, functions))?;
    Ok(Dicts::of(types, labels))
}
