//! What the names of a program mean.

ghost use Rattle.std.specs.Prelude.{◌≡◌};
ghost use Rattle.m5_scope.specs.Meaning.{known, use_of};

use m5_terms::form::LeafForm;
use m5_terms::table::Table;
use m5_terms::types::Prim;

/// What a name means: a local or a valid variable, a declared function, each by its number, or a primitive.
#[derive(Clone, Copy)]
pub enum Meaning {
    Var(u32),
    Valid(u32),
    Glob(u32),
    Extern(Prim),
}

/// The form of a use of a name.
pub(crate) fn use_form(meaning: Meaning) -> LeafForm
    ensures { result ≡ use_of meaning }
{
    match meaning {
        Meaning::Var(number) => LeafForm::Var(number),
        Meaning::Valid(number) => LeafForm::Valid(number),
        Meaning::Glob(number) => LeafForm::Glob(number),
        Meaning::Extern(prim) => LeafForm::Extern(prim),
    }
}

/// What a name means.
pub(crate) fn meaning_of(table: &Table<Meaning>, name: usize) -> Option<Meaning>
    ensures { result ≡ known table.now name }
{
    match table.get(name) {
        Some(meaning) => Some(*meaning),
        None => None,
    }
}
