//! The symbols of the grammar, of which `specs/Productions` makes its table.

use crate::form::{BinaryForm, TypeJoin, TypePlain, TypeWrap};
use m5_terms::types::World;

/// What a token is: a name, a number, a text literal, a keyword or a symbol, the last two in the order of their lists.
#[derive(Clone, Copy)]
pub enum Kind {
    Name,
    Number,
    Literal,
    Extern,
    Val,
    Fun,
    Main,
    Fn,
    Rec,
    Let,
    In,
    End,
    Do,
    Put,
    Leta,
    Lets,
    If,
    Then,
    Else,
    Case,
    Of,
    Inl,
    Inr,
    Nil,
    From,
    Get,
    Spawn,
    Hold,
    Here,
    Sham,
    Fst,
    Snd,
    Ref,
    Str,
    Div,
    True,
    False,
    At,
    Addr,
    List,
    Unit,
    Bool,
    Int,
    String,
    Home,
    Server,
    Panel,
    Open,
    Close,
    OpenSquare,
    CloseSquare,
    Comma,
    Colon,
    Assign,
    Cons,
    Equals,
    SameText,
    Arrow,
    To,
    Minus,
    Plus,
    Star,
    Caret,
    Less,
    Bang,
    Bar,
    AtSign,
    Tilde,
}

/// The phrases of the grammar. A rest is what may follow the first part of a phrase.
#[derive(Clone, Copy)]
pub enum Phrase {
    Program,
    Externs,
    Functions,
    FunctionName,
    World,
    Written,
    WrittenRest,
    SumType,
    SumTypeRest,
    ProductType,
    ProductTypeRest,
    PostfixType,
    Suffixes,
    AtomType,
    Expr,
    Body,
    StoreRest,
    Compare,
    CompareRest,
    Cons,
    ConsRest,
    Sum,
    SumRest,
    Product,
    ProductRest,
    Application,
    Arguments,
    Head,
    Atom,
    Group,
    TupleRest,
    Declarations,
    More,
    Arms,
}

/// What a production reads or does: a token, kept as a value or not, a phrase, or an action.
#[derive(Clone, Copy)]
pub enum Symbol {
    Tok(bool, Kind),
    Nt(Phrase),
    Act(Action),
}

/// What is done between tokens: the level goes up into a phrase and comes back, goes up by one, or a value is made.
#[derive(Clone, Copy)]
pub enum Action {
    Enter,
    Leave,
    Pass,
    Make(Form),
}

/// What is made of the last values.
#[derive(Clone, Copy)]
pub enum Form {
    Declare(DeclarationForm),
    Write(WrittenForm),
    Build(ExprForm),
}

/// A part of the declarations, or the whole program.
#[derive(Clone, Copy)]
pub enum DeclarationForm {
    Begin,
    OfExtern,
    Anywhere,
    OfFunction,
    OfProgram,
    OfWorld(World),
}

/// A written type.
#[derive(Clone, Copy)]
pub enum WrittenForm {
    OfBase(TypePlain),
    OfAddress,
    OfSham,
    OfSuffix(TypeWrap),
    OfAt,
    OfJoin(TypeJoin),
    Group,
}

/// An expression, or the parts between brackets.
#[derive(Clone, Copy)]
pub enum ExprForm {
    OfName,
    OfNumber,
    OfLiteral,
    OfPlain(Plain),
    OfNil,
    OfPrefix(Prefix),
    OfInl,
    OfInr,
    OfFn,
    OfRec,
    OfInfix(BinaryForm),
    OfLeading(BinaryForm),
    OfBinding(Binding),
    OfIf,
    OfCaseSum,
    OfCaseList,
    NoParts,
    AddPart,
    OfTuple,
    Group,
}

/// An expression of one keyword.
#[derive(Clone, Copy)]
pub enum Plain {
    True,
    False,
    Here,
    Home,
    Server,
    Panel,
}

/// A keyword or symbol before one expression.
#[derive(Clone, Copy)]
pub enum Prefix {
    Fst,
    Snd,
    Load,
    NewCell,
    Hold,
    Sham,
    StrOf,
    Div,
    Spawn,
}

/// A declaration of a `let` that binds a name.
#[derive(Clone, Copy)]
pub enum Binding {
    Val,
    Put,
    Leta,
    Lets,
}
