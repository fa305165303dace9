//! A policy that fits a topology.

ghost use Rattle.std.specs.Prelude.{◌≡◌, ◌<◌, Some, length, map, slice_get, option_and_then};
ghost use Rattle.std.specs.List.{AllByRecursion};
ghost use Rattle.std.specs.Option.{option_copied};
ghost use Rattle.merlin_model.specs.Policies.{paths_of};
ghost use Rattle.rate_formula.specs.Usage.{ids_in};
ghost use Rattle.localise.specs.Localised.{localised};
ghost use Rattle.policy_check.specs.Checked.{IsSoundPolicy, automaton_of_statement};

use crate::automata::Automata;
use crate::listing::Listing;
use localise::Rates;
use merlin_model::Name;
use merlin_model::policy::{Path, Pred};
use path_automaton::Automaton;
use rate_formula::Formula;
use sqlite_items::Items;
use std::marker::Model;

/// A policy over the numbers of a network, its rates, and an automaton for each path. Statements are numbered from 0, the default last.
#[derive(Drop)]
pub struct Checked {
    pub(crate) listing: Listing,
    pub(crate) paths: Items<Path>,
    pub(crate) formula: Formula,
    pub(crate) rates: Rates,
    pub(crate) automata: Automata,
}

impl Model for Checked {
    ghost use Rattle.std.specs.Coded.{codes};
    ghost use Rattle.merlin_model.specs.contracts.policy.Path as path;
    ghost use Rattle.merlin_model.specs.contracts.policy.Pred as pred;
    ghost use Rattle.policy_check.specs.Checked.{CheckedPolicy};

    ghost Value = { CheckedPolicy };

    ghost coded = { Prim.hlevel (codes, path.the_row.coded, pred.the_row.coded) };

    ghost use Rattle.policy_check.specs.Kept.{checked_in, IsWholeCheck};

    ghost view = { checked_in };

    ghost invariant = { IsWholeCheck };
}

impl Checked {
    /// The number of statements, with the default if there is one.
    pub fn statements(&self) -> usize
        ensures count { result ≡ length (paths_of self.now.policy) }
        ensures sound { IsSoundPolicy self.now.policy }
    {
        self.paths.len()
    }

    /// The id of a statement. The default has none.
    pub fn id(&self, statement: usize) -> Option<&Name>
        ensures { option_copied result ≡ slice_get (ids_in self.now.policy) statement }
    {
        name_at(self.listing.ids.as_slice(), statement)
    }

    // The ids of the statements, in their order.
    pub(crate) fn ids(&self) -> &[Name]
        ensures { result.now ≡ ids_in self.now.policy }
    {
        self.listing.ids.as_slice()
    }

    /// The predicates of the statements, in their order.
    pub fn preds(&self) -> &[Pred]
        ensures { result.now ≡ map (λ s. s.pred) self.now.policy.statements }
    {
        self.listing.preds.as_slice()
    }

    /// The path of a statement, or of the default.
    pub fn path(&self, statement: usize) -> &Path
        requires { statement < length (paths_of self.now.policy) }
        ensures { slice_get (paths_of self.now.policy) statement ≡ Some result.now }
    {
        path_at(self.paths.as_slice(), statement)
    }

    /// The automaton of the path of a statement, or of the default.
    pub fn automaton(&self, statement: usize) -> &Automaton
        requires { statement < length (paths_of self.now.policy) }
        ensures { automaton_of_statement self.now statement ≡ Some result.now }
    {
        let built = self.automata.built.as_slice();
        automaton_at(built, self.automata.numbers.as_slice(), statement)
    }

    /// All automata: one for each normal form among the paths. Each path has the number of one.
    pub fn automata(&self) -> &[Automaton]
        ensures all { result.now ≡ self.now.automata }
        ensures numbers { length self.now.automaton_numbers ≡ length (paths_of self.now.policy) }
    {
        self.automata.built.as_slice()
    }

    /// The bandwidth formula.
    pub fn formula(&self) -> &Formula
        ensures { result.now.terms ≡ self.now.policy.terms }
    {
        &self.formula
    }

    /// The localised rates of the statements, in their order and in kbit/s. The default has none.
    pub fn rates(&self) -> &Rates
        ensures { result.now ≡ localised self.now.policy.terms (ids_in self.now.policy) }
    {
        &self.rates
    }
}

// What stands at a place.

fn name_at(ids: &[Name], place: usize) -> Option<&Name>
    ensures { option_copied result ≡ slice_get ids.now place }
{
    ids.get(place)
}

fn path_at(paths: &[Path], place: usize) -> &Path
    requires { place < length paths.now }
    ensures { slice_get paths.now place ≡ Some result.now }
{
    &paths[place]
}

// The automaton whose number stands at a place.
fn automaton_at<'a>(built: &'a [Automaton], numbers: &[usize], place: usize) -> &'a Automaton
    requires place { place < length numbers.now }
    requires numbers { AllByRecursion (λ n. n < length built.now) numbers.now }
    ensures { option_and_then (slice_get built.now) (slice_get numbers.now place) ≡
        Some result.now }
{
    let number = numbers[place];
    &built[number]
}
