//! Brzozowski's derivatives (1964) of normal forms that share their parts, and the empty word. What follows an Alt is kept, since
//! Alts share their ends and are met again in other states (memoization, Michie 1968).

ghost use Rattle.std.specs.Prelude.{◌≡◌, ◌<◌, ◌∷◌, [], length, IfOk};
ghost use Rattle.path_regex.specs.Normal.{alt_of as alt};
ghost use Rattle.path_regex.specs.Derivatives.{takes_empty as takes, empty_if as when};
ghost use Rattle.path_regex.specs.Derivatives.{derivative_of};
ghost use Rattle.path_regex.specs.Shared.{form_at, members_after, IsChain, AddsForms, IsFormAt};

use crate::forms::{FormNode, Forms};
use merlin_model::OutOfMemory;
use merlin_model::policy::Symbol;

impl Forms {
    /// Whether the form takes the empty word.
    pub fn takes_empty(&self, form: usize) -> bool
        requires { form < length self.now }
        ensures { result ≡ takes (form_at self.now form) }
    {
        match self.node(form) {
            FormNode::Nothing
            | FormNode::Dot
            | FormNode::Loc(_)
            | FormNode::Fun(_)
            | FormNode::NoChoice => false,
            FormNode::Empty | FormNode::Star(_) => true,
            FormNode::Cat(first, rest) => self.takes_empty(first) && self.takes_empty(rest),
            FormNode::Alt(first, rest) => self.takes_empty(first) || self.takes_empty(rest),
            FormNode::Not(inner) => !self.takes_empty(inner),
        }
    }

    /// The empty word alone, or nothing.
    fn empty_if(&mut self, taken: bool) -> Result<usize, OutOfMemory>
        ensures grows { AddsForms self.old self.new }
        ensures value { IfOk result (λ form. IsFormAt self.new form (when taken)) }
    {
        self.put(if taken {
            FormNode::Empty
        } else {
            FormNode::Nothing
        })
    }

    /// Either of two forms.
    fn either(&mut self, first: usize, second: usize) -> Result<usize, OutOfMemory>
        requires first { first < length self.old }
        requires second { second < length self.old }
        ensures grows { AddsForms self.old self.new }
        ensures value { IfOk result (λ form.
            IsFormAt self.new form (alt (form_at self.old first ∷ form_at self.old second ∷ []))) }
    {
        let none = self.put(FormNode::Nothing)?;
        let one = self.all_added(second, none)?;
        let all = self.all_added(first, one)?;
        Ok(self.one_of(all))
    }

    /// What may follow after a symbol.
    #[cycle(stepping)]
    pub fn derivative(&mut self, form: usize, symbol: Symbol) -> Result<usize, OutOfMemory>
        requires { form < length self.old }
        ensures grows { AddsForms self.old self.new }
        ensures value { IfOk result (λ rest.
            IsFormAt self.new rest (derivative_of (form_at self.old form) symbol)) }
    {
        match self.node(form) {
            FormNode::Nothing | FormNode::Empty | FormNode::NoChoice => self.put(FormNode::Nothing),
            FormNode::Dot => self.empty_if(symbol.fun.is_none()),
            FormNode::Loc(loc) => self.empty_if(symbol.fun.is_none() && loc == symbol.loc),
            FormNode::Fun(fun) => self.empty_if(symbol.fun == Some(fun)),
            FormNode::Cat(first, rest) => {
                let after = self.derivative(first, symbol)?;
                let way = self.cat_of(after, rest)?;
                if !self.takes_empty(first) {
                    return Ok(way);
                }
                let other = self.derivative(rest, symbol)?;
                self.either(way, other)
            }
            FormNode::Alt(_, _) => {
                let all = self.derivatives(form, symbol)?;
                self.note_step(form, symbol, all)?;
                Ok(self.one_of(all))
            }
            FormNode::Star(inner) => {
                let after = self.derivative(inner, symbol)?;
                self.cat_of(after, form)
            }
            FormNode::Not(inner) => match symbol.fun {
                None => {
                    let after = self.derivative(inner, symbol)?;
                    self.not_of(after)
                }
                Some(_) => self.put(FormNode::Nothing),
            },
        }
    }

    /// The Alt of what may follow the members of an Alt after a symbol.
    #[cycle(stepping)]
    fn derivatives(&mut self, all: usize, symbol: Symbol) -> Result<usize, OutOfMemory>
        requires within { all < length self.old }
        requires chain { IsChain (form_at self.old all) }
        ensures grows { AddsForms self.old self.new }
        ensures value { IfOk result (λ rest.
            IsFormAt self.new rest (members_after (form_at self.old all) symbol)) }
    {
        let FormNode::Alt(first, rest) = self.node(all) else {
            return Ok(all);
        };
        if let Some(known) = self.known_step(all, symbol) {
            return Ok(known);
        }
        let others = self.derivatives(rest, symbol)?;
        let after = self.derivative(first, symbol)?;
        self.all_added(after, others)
    }
}
