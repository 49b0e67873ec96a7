//! Expressions as they are written, each node with its place.

ghost use Rattle.std.specs.Prelude.{◌≡◌, ◌∷◌, ◌++◌, [], IfOk, OnOk};
ghost use Rattle.m5_tree.specs.Syntax.{leaf, unary, binary, ternary};
ghost use Rattle.m5_tree.specs.Tuple.{tuple};

use crate::form::{BinaryForm, LeafForm, TernaryForm, UnaryForm};
use m5_lex::Place;
use std::alloc::{AllocError, Global};
use std::marker::Model;

/// An expression, with the place of its phrase's first token.
#[cycle(expr)]
pub struct Expr {
    pub place: Place,
    pub shape: Shape,
}

/// Written out, so that a caller lets an expression go by one call.
impl Drop for Expr {
    #[cycle(expr)]
    fn drop(self) {
        let Expr { place: _, shape } = self;
        drop(shape);
    }
}

impl Model for Expr {
    ghost use Rattle.std.specs.Prelude.{◌*◌, ◌+◌};
    ghost use Rattle.m5_tree.specs.Syntax.{Syntax, syntax_code, node_count};

    ghost Value = { Syntax };

    ghost coded = { syntax_code };

    ghost use Rattle.m5_tree.specs.Meaning.{meaning, IsWide};

    ghost view = { λ e. meaning e.place e.shape };

    ghost invariant = { λ e. IsWide e.shape };

    ghost size = { λ e. 2 * node_count e };

    ghost use Rattle.m5_tree.specs.ExprFalls.{shape_falls};

    ghost size_decreases = { λ a h. shape_falls a.place a.shape h };
}

/// An expression on the heap.
#[cycle(expr)]
#[derive(Drop)]
pub struct ExprBox {
    inner: Box<Expr>,
}

impl Model for ExprBox {
    ghost use Rattle.std.specs.Prelude.{◌*◌, ◌+◌};
    ghost use Rattle.m5_tree.specs.Syntax.{Syntax, syntax_code, node_count};

    ghost Value = { Syntax };

    ghost coded = { syntax_code };

    ghost view = { λ b. b.inner.value };

    ghost size = { λ e. 2 * node_count e + 1 };

    ghost use Rattle.std.proofs.Common.{arith};

    ghost size_decreases = { λ a h. Prim.grind arith };
}

impl ExprBox {
    fn new(alloc: Global, expr: Expr) -> Result<ExprBox, AllocError>
        ensures { IfOk result (λ b. b ≡ expr) }
    {
        Ok(ExprBox {
            inner: Box::new(alloc, expr)?,
        })
    }

    /// The expression itself.
    pub fn get(&self) -> &Expr
        ensures { result.now ≡ self.now }
    {
        &self.inner
    }
}

/// A part of a tuple, with the place of its phrase, whose brackets it may have lost.
#[cycle(expr)]
#[derive(Drop)]
pub struct Part {
    pub place: Place,
    pub expr: Expr,
}

/// An expression by the number of its parts. A tuple of any length is one level of the tree.
#[cycle(expr)]
#[derive(Drop)]
pub enum Shape {
    Leaf(LeafForm),
    Unary(UnaryForm, ExprBox),
    Binary(BinaryForm, ExprBox, ExprBox),
    Ternary(TernaryForm, ExprBox, ExprBox, ExprBox),
    Tuple(Vec<Part>),
}

/// The parts between brackets, which contracts see as a list.
#[derive(Drop)]
pub struct Parts {
    held: Vec<Part>,
}

impl Model for Parts {
    ghost use Rattle.std.specs.Prelude.{List};
    ghost use Rattle.m5_tree.specs.declared.expr.Part.{Part};
    ghost use Rattle.m5_tree.specs.contracts.expr.Part as part;
    ghost use Rattle.std.specs.Coded.{coded_list};

    ghost Value = { List Part };

    ghost coded = { coded_list part.the_row.coded };

    ghost view = { λ p. p.held.items };
}

impl Parts {
    /// No parts.
    pub fn new(alloc: Global) -> Parts
        ensures { result ≡ [] }
    {
        Parts {
            held: Vec::new(alloc),
        }
    }

    /// Adds a part at the end.
    pub fn push(&mut self, part: Part) -> Result<(), AllocError>
        ensures { OnOk result (self.new ≡ self.old ++ part ∷ []) }
    {
        self.held.push(part)?;
        Ok(())
    }
}

impl Expr {
    /// An expression without parts.
    pub fn leaf(place: Place, form: LeafForm) -> Expr
        ensures { result ≡ leaf place form }
    {
        Expr {
            place,
            shape: Shape::Leaf(form),
        }
    }

    /// An expression of one part.
    pub fn unary(
        alloc: Global,
        place: Place,
        form: UnaryForm,
        first: Expr,
    ) -> Result<Expr, AllocError>
        ensures { IfOk result (λ e. e ≡ unary place form first) }
    {
        Ok(Expr {
            place,
            shape: Shape::Unary(form, ExprBox::new(alloc, first)?),
        })
    }

    /// An expression of two parts.
    pub fn binary(
        alloc: Global,
        place: Place,
        form: BinaryForm,
        first: Expr,
        second: Expr,
    ) -> Result<Expr, AllocError>
        ensures { IfOk result (λ e. e ≡ binary place form first second) }
    {
        let first = ExprBox::new(alloc, first)?;
        let second = ExprBox::new(alloc, second)?;
        Ok(Expr {
            place,
            shape: Shape::Binary(form, first, second),
        })
    }

    /// An expression of three parts.
    pub fn ternary(
        alloc: Global,
        place: Place,
        form: TernaryForm,
        first: Expr,
        second: Expr,
        third: Expr,
    ) -> Result<Expr, AllocError>
        ensures { IfOk result (λ e. e ≡ ternary place form first second third) }
    {
        let first = ExprBox::new(alloc, first)?;
        let second = ExprBox::new(alloc, second)?;
        let third = ExprBox::new(alloc, third)?;
        Ok(Expr {
            place,
            shape: Shape::Ternary(form, first, second, third),
        })
    }

    /// What stands between brackets: unit, one expression, or a tuple.
    pub fn tuple(place: Place, parts: Parts) -> Expr
        ensures { result ≡ tuple place parts }
    {
        let Parts { mut held } = parts;
        if held.len() > 1 {
            return Expr {
                place,
                shape: Shape::Tuple(held),
            };
        }
        match held.pop() {
            None => Expr::leaf(place, LeafForm::Unit),
            Some(part) => {
                let Part { place: _, expr } = part;
                expr
            }
        }
    }
}
