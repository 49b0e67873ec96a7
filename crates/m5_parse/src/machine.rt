//! Reads tokens by a stack of symbols, with one token of look-ahead.

ghost use Rattle.std.specs.Prelude.{◌≡◌, ◌<◌, ◌∷◌, ℕ, Bool, List, [], OnOk, IfOk, IfErr};
ghost use Rattle.m5_tree.specs.Reading.{act, at_start, names_with, raised, shift, value_of};
ghost use Rattle.m5_tree.specs.declared.grammar.Symbol.TheVariants.{Nt, Tok};
ghost use Rattle.m5_tree.specs.declared.grammar.Phrase.TheVariants as phrase;
ghost use Rattle.m5_tree.specs.declared.value.Value.{Value as ValueOf};
ghost use Rattle.m5_parse.specs.Machine.{Accepted, Ends, IsStop, Outcome, state, state_of};
ghost use Rattle.m5_parse.specs.Work.{work};

use crate::choice::choice;
use crate::code::leads_with;
use crate::make::make;
use crate::stack::Stack;
use m5_lex::Token;
use m5_lex::tokens::Placed;
use m5_tree::grammar::{Action, Kind, Phrase, Symbol};
use m5_tree::names::Names;
use m5_tree::value::Value;
use std::alloc::{AllocError, Global};

/// The highest level at which a token may stand.
const LIMIT: usize = 400;

/// Why there is no tree, with how many tokens left.
#[derive(Clone, Copy)]
pub(crate) enum Stop {
    Memory,
    Syntax(usize),
    Deep(usize),
}

impl From<AllocError> for Stop {
    ghost use Rattle.m5_parse.specs.declared.machine.Stop.TheVariants.{Memory};

    ghost from_gives = { λ _ e. e ≡ Memory };

    fn from(_: AllocError) -> Stop {
        Stop::Memory
    }
}

/// What is pending, and what was read.
#[derive(Drop)]
pub(crate) struct Machine {
    pub pending: Stack<Symbol>,
    pub names: Names,
    pub values: Stack<Value>,
    pub level: usize,
    pub outside: Stack<usize>,
}

fn raised_level(level: usize) -> usize
    ensures { result ≡ raised level }
{
    if level <= LIMIT { level + 1 } else { level }
}

fn perform(alloc: Global, action: Action, machine: &mut Machine) -> Result<(), AllocError>
    ensures state { OnOk result (state_of machine.new ≡ act action (state_of machine.old)) }
    ensures pending { OnOk result (machine.new.pending ≡ machine.old.pending) }
{
    match action {
        Action::Enter => {
            machine.outside.push(machine.level)?;
            machine.level = raised_level(machine.level);
        }
        Action::Leave => match machine.outside.pop() {
            Some(level) => machine.level = level,
            None => machine.level = 0,
        },
        Action::Pass => machine.level = raised_level(machine.level),
        Action::Make(form) => make(alloc, form, &mut machine.values)?,
    }
    Ok(())
}

/// The value of a token that is kept; a name is noted.
fn value_of_token(alloc: Global, names: &mut Names, placed: &Placed) -> Result<Value, AllocError>
    ensures value { IfOk result (λ v. v ≡ value_of names.old placed.now.place placed.now.token) }
    ensures names { OnOk result (names.new ≡ names_with names.old placed.now.token) }
{
    match &placed.token {
        Token::Name(name) => {
            let number = names.number(alloc, name.bytes())?;
            Ok(Value::Name(placed.place, number))
        }
        Token::Number(number) => Ok(Value::Number(placed.place, *number)),
        Token::Literal(text) => Ok(Value::Literal(placed.place, text.copy(alloc)?)),
        Token::Word(_) | Token::Sign(_) => Ok(Value::Mark(placed.place)),
    }
}

/// Takes a token of this kind from the front.
fn take(rest: &[Placed], level: usize, kind: Kind) -> Result<(&Placed, &[Placed]), Stop>
    ensures here { IfOk result (λ p. rest.now ≡ p.0.now ∷ p.1.now) }
    ensures reads { IfOk result (λ p. (keep : Bool) (o : Outcome) (ss : List Symbol) (ns : List (List ℕ)) (vs : List ValueOf) (os : List ℕ) → Ends o ss p.1.now (shift keep p.0.now (state ns vs level os)) → Ends o (Tok keep kind ∷ ss) rest.now (state ns vs level os)) }
    ensures stops { IfErr result (λ e. (keep : Bool) (o : Outcome) (ss : List Symbol) (ns : List (List ℕ)) (vs : List ValueOf) (os : List ℕ) → IsStop e o → Ends o (Tok keep kind ∷ ss) rest.now (state ns vs level os)) }
{
    if !leads_with(rest, &[kind]) {
        return Err(Stop::Syntax(rest.len()));
    }
    if level > LIMIT {
        return Err(Stop::Deep(rest.len()));
    }
    match rest.split_first() {
        None => Err(Stop::Syntax(rest.len())),
        Some((token, more)) => Ok((token, more)),
    }
}

/// Does the step of a symbol that is no longer pending, and answers the tokens that are left.
fn step<'a>(
    alloc: Global,
    symbol: Symbol,
    machine: &mut Machine,
    rest: &'a [Placed],
) -> Result<&'a [Placed], Stop>
    ensures goes { IfOk result (λ left. (o : Outcome) → Ends o machine.new.pending left.now (state_of machine.new) → Ends o (symbol ∷ machine.old.pending) rest.now (state_of machine.old)) }
    ensures lighter { IfOk result (λ left. work machine.new.pending left.now < work (symbol ∷ machine.old.pending) rest.now) }
    ensures stops { IfErr result (λ e. (o : Outcome) → IsStop e o → Ends o (symbol ∷ machine.old.pending) rest.now (state_of machine.old)) }
{
    match symbol {
        Symbol::Tok(keep, kind) => {
            let (token, left) = take(rest, machine.level, kind)?;
            if keep {
                let value = value_of_token(alloc, &mut machine.names, token)?;
                machine.values.push(value)?;
            }
            Ok(left)
        }
        Symbol::Nt(phrase) => {
            machine.pending.push_all(choice(phrase, rest))?;
            Ok(rest)
        }
        Symbol::Act(action) => {
            perform(alloc, action, machine)?;
            Ok(rest)
        }
    }
}

/// Reads the tokens as a program, and answers what was read.
pub(crate) fn run(alloc: Global, tokens: &[Placed]) -> Result<Machine, Stop>
    ensures ends { IfOk result (λ m. Ends (Accepted (state_of m)) (Nt phrase.Program ∷ []) tokens.now at_start) }
    ensures stops { IfErr result (λ e. (o : Outcome) → IsStop e o → Ends o (Nt phrase.Program ∷ []) tokens.now at_start) }
{
    let mut pending = Stack::new(alloc);
    pending.push(Symbol::Nt(Phrase::Program))?;
    let mut machine = Machine {
        pending,
        names: Names::new(alloc),
        values: Stack::new(alloc),
        level: 0,
        outside: Stack::new(alloc),
    };
    let mut rest = tokens;
    loop {
        match machine.pending.pop() {
            Some(symbol) => rest = step(alloc, symbol, &mut machine, rest)?,
            None if rest.is_empty() => return Ok(machine),
            None => return Err(Stop::Syntax(rest.len())),
        }
    }
}
