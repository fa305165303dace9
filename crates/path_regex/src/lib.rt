//! Path expressions: their normal forms, their derivatives, and the empty word.
#![tactic(auto)]

ghost use Rattle.std.specs.Prelude.{◌≡◌, ◌↔◌, [], IfOk, IsTrue};
ghost use Rattle.merlin_model.specs.Paths.{InLanguage};
ghost use Rattle.path_regex.specs.Normal.{normal_of, IsNormalForm};
ghost use Rattle.path_regex.specs.Derivatives.{takes_empty, derivative_of};
ghost use Rattle.path_regex.specs.Functions.{HasNoFunctionUnderNot};
ghost use Rattle.path_regex.specs.Languages.{TakesSameWords, IsQuotient};

mod comparing;
mod empty_word;
pub mod forms;
mod joining;
pub mod laws;
pub mod order;
mod stepping;
mod trees;

use forms::Forms;
pub use merlin_model::OutOfMemory;
pub use merlin_model::policy::{Path, Symbol};
use std::alloc::Global;

/// The normal form of the path. It is its own normal form, and it takes the words that the path
/// takes where no function stands under a Not.
pub fn normal(alloc: Global, path: &Path) -> Result<Path, OutOfMemory>
    ensures is { IfOk result (λ form. form ≡ normal_of path.now) }
    ensures own { IfOk result IsNormalForm }
    ensures functions { HasNoFunctionUnderNot path.now → IfOk result HasNoFunctionUnderNot }
    ensures language { HasNoFunctionUnderNot path.now → IfOk result (TakesSameWords path.now) }
{
    let mut forms = Forms::new(alloc);
    let form = forms.normal(alloc, path)?;
    forms.path_of(alloc, form)
}

/// The path of the words that may follow after the symbol; it is in normal form where the path is.
pub fn derivative(alloc: Global, path: &Path, symbol: Symbol) -> Result<Path, OutOfMemory>
    ensures is { IfOk result (λ rest. rest ≡ derivative_of path.now symbol) }
    ensures own { IsNormalForm path.now → IfOk result IsNormalForm }
    ensures functions { HasNoFunctionUnderNot path.now → IfOk result HasNoFunctionUnderNot }
    ensures quotient { HasNoFunctionUnderNot path.now → IfOk result (IsQuotient path.now symbol) }
{
    let mut forms = Forms::new(alloc);
    let form = forms.form_of(alloc, path)?;
    let rest = forms.derivative(form, symbol)?;
    forms.path_of(alloc, rest)
}

/// Whether the path takes the empty word.
pub fn nullable(path: &Path) -> bool
    ensures is { result ≡ takes_empty path.now }
    ensures empty { IsTrue result ↔ InLanguage path.now [] }
{
    empty_word::takes_empty(path)
}
