//! Paths that share their parts: each is kept once, and is named by its place (hash consing, Ershov 1958).

ghost use Rattle.std.specs.Prelude.{◌≡◌, ◌<◌, [], length, IfOk, IfSome};
ghost use Rattle.path_regex.specs.Order.{order};
ghost use Rattle.path_regex.specs.Shared.{meaning, PartsStandBefore, IsNode, AreDistinct};
ghost use Rattle.path_regex.specs.Shared.{AddsForms, IsFormAt, form_at, members_after};

use indexmap::{IndexMap, IndexSet};
use merlin_model::OutOfMemory;
use merlin_model::policy::Symbol;
use std::alloc::Global;
use std::cmp::Ordering;
use std::marker::Model;

/// A path by the places of its parts, which stand before it. An Alt has its first member and the Alt
/// of the others, which is Nothing where there is none; an Alt that never had a member is NoChoice.
#[derive(Clone, Copy, PartialEq, Eq, Hash)]
pub enum FormNode {
    Nothing,
    Empty,
    Dot,
    Loc(usize),
    Fun(usize),
    Cat(usize, usize),
    NoChoice,
    Alt(usize, usize),
    Star(usize),
    Not(usize),
}

/// The greatest number of steps that are kept.
const MAX_STEPS: usize = 65_536;

/// A symbol behind the Alt at a place.
#[derive(Clone, Copy, PartialEq, Eq, Hash)]
struct FormStep {
    all: usize,
    loc: usize,
    fun: Option<usize>,
}

/// Paths that share their parts, each once; how pairs of them compare that were compared before; and
/// what may follow after steps that were taken before.
#[derive(Drop)]
pub struct Forms {
    nodes: IndexSet<FormNode>,
    orders: IndexMap<(usize, usize), Ordering>,
    steps: IndexMap<FormStep, usize>,
}

impl Model for Forms {
    ghost use Rattle.std.specs.Prelude.{List, []};
    ghost use Rattle.std.specs.Coded.{coded_list};
    ghost use Rattle.merlin_model.specs.contracts.policy.Path as p;
    ghost use Rattle.merlin_model.specs.declared.policy.Path.{Path};
    ghost use Rattle.path_regex.specs.Shared.{meanings, AreForms};

    ghost Value = { List Path };

    ghost coded = { coded_list p.the_row.coded };

    ghost view = { λ forms. meanings [] forms.nodes.keys };

    ghost invariant = { λ forms. AreForms forms.nodes.keys forms.orders.entries
        forms.steps.entries };
}

impl Forms {
    /// No path.
    pub fn new(alloc: Global) -> Forms
        ensures { result ≡ [] }
    {
        Forms {
            nodes: IndexSet::new(alloc),
            orders: IndexMap::new(alloc),
            steps: IndexMap::new(alloc),
        }
    }

    /// The parts of a path.
    pub fn node(&self, form: usize) -> FormNode
        requires { form < length self.now }
        ensures { IsNode self.now form result }
    {
        match self.nodes.get_index(form) {
            Some(node) => *node,
            None => FormNode::Nothing,
        }
    }

    /// The place of the path with these parts.
    pub fn put(&mut self, node: FormNode) -> Result<usize, OutOfMemory>
        requires { PartsStandBefore (length self.old) self.old node }
        ensures grows { AddsForms self.old self.new }
        ensures value { IfOk result (λ form. IsFormAt self.new form (meaning self.old node)) }
    {
        let (form, _) = self.nodes.insert_full(node)?;
        Ok(form)
    }

    /// How the forms at two places compare, if they were compared before.
    pub fn known_order(&self, first: usize, second: usize) -> Option<Ordering>
        ensures { IfSome result (λ known.
            known ≡ order (form_at self.now first) (form_at self.now second)) }
    {
        self.orders.get(&(first, second)).copied()
    }

    /// Keeps how the forms at two places compare.
    pub fn note_order(
        &mut self,
        first: usize,
        second: usize,
        found: Ordering,
    ) -> Result<(), OutOfMemory>
        requires first { first < length self.old }
        requires second { second < length self.old }
        requires found { found ≡ order (form_at self.old first) (form_at self.old second) }
        ensures { self.new ≡ self.old }
    {
        self.orders.insert((first, second), found)?;
        Ok(())
    }

    /// The Alt of what may follow the members of an Alt after a symbol, if it is kept.
    pub fn known_step(&self, all: usize, symbol: Symbol) -> Option<usize>
        ensures { IfSome result (λ rest.
            IsFormAt self.now rest (members_after (form_at self.now all) symbol)) }
    {
        let Symbol { loc, fun } = symbol;
        self.steps.get(&FormStep { all, loc, fun }).copied()
    }

    /// Keeps the Alt of what may follow the members of an Alt after a symbol.
    pub fn note_step(&mut self, all: usize, symbol: Symbol, rest: usize) -> Result<(), OutOfMemory>
        requires all { all < length self.old }
        requires rest { IsFormAt self.old rest (members_after (form_at self.old all) symbol) }
        ensures { self.new ≡ self.old }
    {
        self.forget_steps();
        let Symbol { loc, fun } = symbol;
        self.steps.insert(FormStep { all, loc, fun }, rest)?;
        Ok(())
    }

    /// Forgets what may follow after steps where no more may be kept.
    fn forget_steps(&mut self)
        ensures { self.new ≡ self.old }
    {
        if MAX_STEPS <= self.steps.len() {
            self.steps.truncate(0);
        }
    }

    /// Each form has one place.
    pub fn differ(&self)
        ensures { AreDistinct self.now }
    {
        let _nodes = &self.nodes;
    }
}
