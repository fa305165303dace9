//! The states of a path, in the order in which they are found.

ghost use Rattle.std.specs.Prelude.{◌≡◌, ◌<◌, ◌∷◌, [], length, IfOk, OnOk, slice_get, Some};
ghost use Rattle.std.proofs.Common.{get_or};
ghost use Rattle.merlin_model.specs.declared.policy.Path.{Nothing};
ghost use Rattle.path_regex.specs.Normal.{normal_of};
ghost use Rattle.path_regex.specs.Derivatives.{takes_empty, derivative_of};
ghost use Rattle.path_automaton.specs.States.{with_new};

use indexmap::IndexSet;
use merlin_model::OutOfMemory;
use merlin_model::policy::{Path, Symbol};
use path_regex::forms::Forms;
use std::alloc::Global;
use std::marker::Model;

/// The normal forms that were found, each once, in the order in which they were found.
#[derive(Drop)]
pub struct States {
    forms: Forms,
    found: IndexSet<usize>,
}

impl Model for States {
    ghost use Rattle.std.specs.Prelude.{List, map};
    ghost use Rattle.std.specs.Coded.{coded_list};
    ghost use Rattle.merlin_model.specs.contracts.policy.Path as p;
    ghost use Rattle.merlin_model.specs.declared.policy.Path.{Path};
    ghost use Rattle.path_regex.specs.Shared.{form_at, AreFound};

    ghost Value = { List Path };

    ghost coded = { coded_list p.the_row.coded };

    ghost view = { λ states. map (form_at states.forms) states.found.keys };

    ghost invariant = { λ states. AreFound states.forms states.found.keys };
}

impl States {
    /// The normal form of the path alone.
    pub fn new(alloc: Global, path: &Path) -> Result<States, OutOfMemory>
        ensures { IfOk result (λ states. states ≡ normal_of path.now ∷ []) }
    {
        let mut forms = Forms::new(alloc);
        let form = forms.normal(alloc, path)?;
        let mut found = IndexSet::new(alloc);
        found.insert_full(form)?;
        Ok(States { forms, found })
    }

    /// The number of states.
    pub fn len(&self) -> usize
        ensures { result ≡ length self.now }
    {
        self.found.len()
    }

    /// The state after a symbol, which is a new one unless its normal form is there.
    pub fn follow(&mut self, state: usize, symbol: Symbol) -> Result<usize, OutOfMemory>
        requires { state < length self.old }
        ensures with_new { OnOk result (
            self.new ≡ with_new self.old (derivative_of (get_or self.old state Nothing) symbol)) }
        ensures place { IfOk result (λ at.
            slice_get self.new at ≡ Some (derivative_of (get_or self.old state Nothing) symbol)) }
    {
        let form = self.found.as_slice()[state];
        let next = self.forms.derivative(form, symbol)?;
        self.forms.differ();
        let (at, _) = self.found.insert_full(next)?;
        Ok(at)
    }

    /// Whether the normal form of a state takes the empty word.
    pub fn accepts(&self, state: usize) -> bool
        requires { state < length self.now }
        ensures { result ≡ takes_empty (get_or self.now state Nothing) }
    {
        self.forms.takes_empty(self.found.as_slice()[state])
    }
}
