//! Joining normal forms that share their parts: Cats lean to the right, and the members of an Alt are flat, ordered and each there
//! once (Brzozowski's similarity, by which a path has finitely many derivatives).

ghost use Rattle.std.specs.Prelude.{◌≡◌, ◌<◌, ◌∷◌, length, map, IfOk};
ghost use Rattle.std.specs.List.{AllByRecursion, flat_map};
ghost use Rattle.path_regex.specs.Normal.{grouped_cat as grouped, cat_of as cat, star_of as star};
ghost use Rattle.path_regex.specs.Normal.{members, added as added_to, added_all, normal_of};
ghost use Rattle.path_regex.specs.Normal.{one_of as one, alt_of as alt, not_of as complement};
ghost use Rattle.path_regex.specs.Shared.{form_at, alt_by, IsChain, AddsForms, IsFormAt};

use crate::forms::{FormNode, Forms};
use merlin_model::OutOfMemory;
use merlin_model::policy::Path;
use sqlite_items::Items;
use std::alloc::Global;
use std::cmp::Ordering;

impl Forms {
    /// The first followed by the rest, which is neither Nothing nor Empty.
    fn grouped_cat(&mut self, first: usize, rest: usize) -> Result<usize, OutOfMemory>
        requires first { first < length self.old }
        requires rest { rest < length self.old }
        ensures grows { AddsForms self.old self.new }
        ensures value { IfOk result (λ form.
            IsFormAt self.new form (grouped (form_at self.old first) (form_at self.old rest))) }
    {
        match self.node(first) {
            FormNode::Nothing => Ok(first),
            FormNode::Empty => Ok(rest),
            FormNode::Cat(head, tail) => {
                let tail = self.grouped_cat(tail, rest)?;
                self.put(FormNode::Cat(head, tail))
            }
            _ => self.put(FormNode::Cat(first, rest)),
        }
    }

    /// The first followed by the rest.
    pub fn cat_of(&mut self, first: usize, rest: usize) -> Result<usize, OutOfMemory>
        requires first { first < length self.old }
        requires rest { rest < length self.old }
        ensures grows { AddsForms self.old self.new }
        ensures value { IfOk result (λ form.
            IsFormAt self.new form (cat (form_at self.old first) (form_at self.old rest))) }
    {
        match self.node(rest) {
            FormNode::Nothing => Ok(rest),
            FormNode::Empty => Ok(first),
            _ => self.grouped_cat(first, rest),
        }
    }

    /// A form put in its place among the members of an Alt.
    fn added(&mut self, form: usize, others: usize) -> Result<usize, OutOfMemory>
        requires form { form < length self.old }
        requires others { others < length self.old }
        requires chain { IsChain (form_at self.old others) }
        ensures grows { AddsForms self.old self.new }
        ensures value { IfOk result (λ all.
            IsFormAt self.new all
            (alt_by (added_to (form_at self.old form) (members (form_at self.old others))))) }
    {
        let FormNode::Alt(other, rest) = self.node(others) else {
            return self.put(FormNode::Alt(form, others));
        };
        match self.compare(form, other)? {
            Ordering::Less => self.put(FormNode::Alt(form, others)),
            Ordering::Equal => Ok(others),
            Ordering::Greater => {
                let rest = self.added(form, rest)?;
                self.put(FormNode::Alt(other, rest))
            }
        }
    }

    /// What a form adds to an Alt put in its places among the members.
    pub fn all_added(&mut self, form: usize, others: usize) -> Result<usize, OutOfMemory>
        requires form { form < length self.old }
        requires others { others < length self.old }
        requires chain { IsChain (form_at self.old others) }
        ensures grows { AddsForms self.old self.new }
        ensures value { IfOk result (λ all.
            IsFormAt self.new all (alt_by
            (added_all (members (form_at self.old form)) (members (form_at self.old others))))) }
    {
        match self.node(form) {
            FormNode::Nothing | FormNode::NoChoice => Ok(others),
            FormNode::Alt(first, rest) => {
                let others = self.all_added(rest, others)?;
                self.added(first, others)
            }
            _ => self.added(form, others),
        }
    }

    /// Any one of the members of an Alt.
    pub fn one_of(&self, all: usize) -> usize
        requires within { all < length self.now }
        requires chain { IsChain (form_at self.now all) }
        ensures { IsFormAt self.now result (one (members (form_at self.now all))) }
    {
        let FormNode::Alt(first, rest) = self.node(all) else {
            return all;
        };
        match self.node(rest) {
            FormNode::Nothing => first,
            _ => all,
        }
    }

    /// Any number of the form, one after another.
    fn star_of(&mut self, form: usize) -> Result<usize, OutOfMemory>
        requires { form < length self.old }
        ensures grows { AddsForms self.old self.new }
        ensures value { IfOk result (λ repeated.
            IsFormAt self.new repeated (star (form_at self.old form))) }
    {
        match self.node(form) {
            FormNode::Nothing | FormNode::Empty => self.put(FormNode::Empty),
            FormNode::Star(_) => Ok(form),
            _ => self.put(FormNode::Star(form)),
        }
    }

    /// What the form does not take, of words without functions.
    pub fn not_of(&mut self, form: usize) -> Result<usize, OutOfMemory>
        requires { form < length self.old }
        ensures grows { AddsForms self.old self.new }
        ensures value { IfOk result (λ others.
            IsFormAt self.new others (complement (form_at self.old form))) }
    {
        match self.node(form) {
            FormNode::Not(inner) => Ok(inner),
            _ => self.put(FormNode::Not(form)),
        }
    }

    /// Any one of the forms, of which an Alt stands for its members.
    pub fn alt_of(&mut self, mut forms: Items<usize>) -> Result<usize, OutOfMemory>
        requires { AllByRecursion (λ form. form < length self.old) forms }
        ensures grows { AddsForms self.old self.new }
        ensures value { IfOk result (λ form.
            IsFormAt self.new form (alt (map (form_at self.old) forms))) }
    {
        let mut all = self.put(FormNode::Nothing)?;
        while let Some(form) = forms.pop() {
            all = self.all_added(form, all)?;
        }
        Ok(self.one_of(all))
    }

    /// The normal form of a path.
    pub fn normal(&mut self, alloc: Global, path: &Path) -> Result<usize, OutOfMemory>
        ensures grows { AddsForms self.old self.new }
        ensures value { IfOk result (λ form. IsFormAt self.new form (normal_of path.now)) }
    {
        match path {
            Path::Nothing => self.put(FormNode::Nothing),
            Path::Empty => self.put(FormNode::Empty),
            Path::Dot => self.put(FormNode::Dot),
            Path::Loc(loc) => self.put(FormNode::Loc(*loc)),
            Path::Fun(fun) => self.put(FormNode::Fun(*fun)),
            Path::Cat(first, rest) => {
                let first = self.normal(alloc, first.get())?;
                let rest = self.normal(alloc, rest.get())?;
                self.cat_of(first, rest)
            }
            Path::Alt(paths) => {
                let mut forms = Items::new(alloc);
                for path in paths.as_slice() {
                    forms.push(self.normal(alloc, path)?)?;
                }
                self.alt_of(forms)
            }
            Path::Star(inner) => {
                let inner = self.normal(alloc, inner.get())?;
                self.star_of(inner)
            }
            Path::Not(inner) => {
                let inner = self.normal(alloc, inner.get())?;
                self.not_of(inner)
            }
        }
    }
}
