//! Closed programs of chains of blocks, made by hand.

ghost use Rattle.std.specs.Prelude.{◌≡◌, ◌≤◌, ◌<◌, [], ◌∷◌, suc, length, IfOk, OnOk};
ghost use Rattle.m5_cps.specs.declared.entry.Argument.TheVariants.{Value};
ghost use Rattle.m5_cps.specs.declared.entry.Entry.TheVariants.{ByValue};
ghost use Rattle.m5_cps.specs.declared.step.Ending.TheVariants as endings;
ghost use Rattle.m5_flat.specs.declared.step.Step.TheVariants as steps;
ghost use Rattle.flat_bench.specs.Chains.{with_block, AreChains};

use m5_cps::entry::{Argument, Entry, Mode};
use m5_cps::step::Ending;
use m5_cps::types::{TypeRow, Types};
use m5_flat::label::{Kind, Label};
use m5_flat::program::Closed;
use m5_flat::step::Step;
use m5_flat::table::{Ends, Table};
use m5_terms::listed::Listed;
use m5_terms::types::World;
use std::alloc::{AllocError, Global};

/// How many blocks a chain has, or one more.
const LENGTH: usize = 8;

/// Steps, and labels of the blocks that begin there.
#[derive(Drop)]
pub struct Built {
    pub steps: Listed<Step>,
    pub labels: Listed<Label>,
}

/// A type by its number, made of that of a fourth of it: the types of all numbers differ.
fn row(number: usize) -> TypeRow {
    match number {
        0 => TypeRow::Unit,
        1 => TypeRow::Int,
        2 => TypeRow::Str,
        3 => TypeRow::Bool,
        _ => match number % 4 {
            0 => TypeRow::List(number / 4),
            1 => TypeRow::Product(number / 4, 1),
            2 => TypeRow::Sum(number / 4, 2),
            _ => TypeRow::Function(number / 4, 3),
        },
    }
}

/// So many types that differ, at least unit.
fn types(alloc: Global, count: usize) -> Result<Types, AllocError> {
    let mut types = Types::new(alloc)?;
    for number in 1..count {
        types.push(row(number))?;
    }
    Ok(types)
}

/// Where the blocks of a chain stand.
fn standing(chain: usize) -> Mode {
    match chain % 4 {
        0 => Mode::Only(World::Home),
        1 => Mode::Only(World::Server),
        2 => Mode::Only(World::Panel),
        _ => Mode::Everywhere,
    }
}

/// A block more, which ends at once.
fn push_end(
    built: &mut Built,
    mode: Mode,
    argument: usize,
    environment: Listed<Kind>,
) -> Result<(), AllocError>
    ensures { OnOk result (built.new ≡ with_block built.old (steps.Ends endings.Done ∷ []) (record { entry = ByValue mode (Value argument); environment = environment; place = length built.old.steps })) }
{
    let place = built.steps.as_slice().len();
    built.steps.push(Step::Ends(Ending::Done))?;
    built.labels.push(Label {
        entry: Entry::ByValue(mode, Argument::Value(argument)),
        environment,
        place,
    })?;
    Ok(())
}

/// The block that ends a thread, and main's, which ends at once, too.
fn begin(alloc: Global, types: &Types) -> Result<Built, AllocError>
    ensures chains { IfOk result (λ b. AreChains types.now b) }
    ensures two { IfOk result (λ b. length b.labels ≡ 2) }
{
    let mut built = Built {
        steps: Listed::make(alloc),
        labels: Listed::make(alloc),
    };
    let unit = types.unit();
    push_end(&mut built, Mode::Everywhere, unit, Listed::make(alloc))?;
    let home = Mode::Only(World::Home);
    push_end(&mut built, home, unit, Listed::make(alloc))?;
    Ok(built)
}

/// The first block of a chain, over one thing.
fn push_first(
    alloc: Global,
    types: &Types,
    built: &mut Built,
    chain: usize,
) -> Result<(), AllocError>
    requires { AreChains types.now built.old }
    ensures chains { OnOk result (AreChains types.now built.new) }
    ensures more { OnOk result (length built.new.labels ≡ suc (length built.old.labels)) }
{
    let mut environment = Listed::make(alloc);
    environment.push(Kind {
        times: chain % 2,
        number: types.count().saturating_sub(chain).saturating_sub(1),
    })?;
    push_end(built, standing(chain), chain, environment)?;
    Ok(())
}

/// A block like an earlier one over one thing. It makes a closure of that one, over the same thing, and enters it with its own
/// argument.
fn push_link(alloc: Global, types: &Types, built: &mut Built, next: usize) -> Result<(), AllocError>
    requires chains { AreChains types.now built.old }
    requires far { 2 ≤ next }
    requires there { next < length built.old.labels }
    ensures chains { OnOk result (AreChains types.now built.new) }
    ensures more { OnOk result (length built.new.labels ≡ suc (length built.old.labels)) }
{
    let _ = types;
    let place = built.steps.as_slice().len();
    let earlier = built.labels.at(next as u64);
    let label = Label {
        entry: earlier.entry,
        environment: earlier.environment.copy(alloc)?,
        place,
    };
    let mut taken = Listed::make(alloc);
    taken.push(0)?;
    built.steps.push(Step::Closure {
        taken,
        label: next,
        next: place + 1,
    })?;
    built.steps.push(Step::Ends(Ending::Go(3, 2)))?;
    built.labels.push(label)?;
    Ok(())
}

/// So many labels' blocks: the end of a thread, main's, and as many chains as said.
fn blocks(alloc: Global, types: &Types, labels: usize, chains: usize) -> Result<Built, AllocError>
    requires two { 2 ≤ labels }
    requires one { 1 ≤ chains }
    ensures chains { IfOk result (λ b. AreChains types.now b) }
    ensures all { IfOk result (λ b. length b.labels ≡ labels) }
{
    let mut built = begin(alloc, types)?;
    for index in 2..labels {
        if index - 2 < chains {
            push_first(alloc, types, &mut built, index - 2)?;
        } else {
            push_link(alloc, types, &mut built, index - chains)?;
        }
    }
    Ok(built)
}

/// A closed program of so many labels: a thread's end, main, and chains of about eight blocks each. The blocks of a chain have
/// an argument of one type, which differs from those of other chains, and stand at one world, or at each.
pub fn closed(alloc: Global, labels: usize) -> Result<Closed, AllocError>
    requires { 8 ≤ labels }
    ensures { IfOk result (λ c. length c.labels ≡ labels) }
{
    let chains = labels / LENGTH;
    let rows = types(alloc, chains)?;
    let built = blocks(alloc, &rows, labels, chains)?;
    let ends = Ends { main: 1, finish: 0 };
    let table = Table::make(rows, built.steps, built.labels, Listed::make(alloc), ends);
    Ok(Closed::make(table))
}
