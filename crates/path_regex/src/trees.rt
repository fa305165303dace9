//! Paths as trees and as places: a path as it stands put among paths that share their parts, and one of these written out.

ghost use Rattle.std.specs.Prelude.{◌≡◌, ◌<◌, length, map, IfOk};
ghost use Rattle.std.specs.List.{AllByRecursion};
ghost use Rattle.merlin_model.specs.declared.policy.Path.{Alt};
ghost use Rattle.path_regex.specs.Normal.{members};
ghost use Rattle.path_regex.specs.Shared.{form_at, IsChain, AddsForms, IsFormAt};

use crate::forms::{FormNode, Forms};
use merlin_model::OutOfMemory;
use merlin_model::policy::Path;
use sqlite_items::{Boxed, Items};
use std::alloc::Global;

impl Forms {
    /// The place of the path as it stands.
    pub fn form_of(&mut self, alloc: Global, path: &Path) -> Result<usize, OutOfMemory>
        ensures grows { AddsForms self.old self.new }
        ensures value { IfOk result (λ form. IsFormAt self.new form path.now) }
    {
        match path {
            Path::Nothing => self.put(FormNode::Nothing),
            Path::Empty => self.put(FormNode::Empty),
            Path::Dot => self.put(FormNode::Dot),
            Path::Loc(loc) => self.put(FormNode::Loc(*loc)),
            Path::Fun(fun) => self.put(FormNode::Fun(*fun)),
            Path::Cat(first, rest) => {
                let first = self.form_of(alloc, first.get())?;
                let rest = self.form_of(alloc, rest.get())?;
                self.put(FormNode::Cat(first, rest))
            }
            Path::Alt(paths) => {
                let mut forms = Items::new(alloc);
                for path in paths.as_slice() {
                    forms.push(self.form_of(alloc, path)?)?;
                }
                self.choice_of(forms)
            }
            Path::Star(inner) => {
                let inner = self.form_of(alloc, inner.get())?;
                self.put(FormNode::Star(inner))
            }
            Path::Not(inner) => {
                let inner = self.form_of(alloc, inner.get())?;
                self.put(FormNode::Not(inner))
            }
        }
    }

    /// The place of the Alt whose members are the paths at the places.
    fn choice_of(&mut self, mut forms: Items<usize>) -> Result<usize, OutOfMemory>
        requires { AllByRecursion (λ form. form < length self.old) forms }
        ensures grows { AddsForms self.old self.new }
        ensures value { IfOk result (λ form.
            IsFormAt self.new form (Alt (map (form_at self.old) forms))) }
    {
        if forms.is_empty() {
            return self.put(FormNode::NoChoice);
        }
        let mut all = self.put(FormNode::Nothing)?;
        while let Some(form) = forms.pop() {
            all = self.put(FormNode::Alt(form, all))?;
        }
        Ok(all)
    }

    /// The path at the place.
    #[cycle(writing)]
    pub fn path_of(&self, alloc: Global, form: usize) -> Result<Path, OutOfMemory>
        requires { form < length self.now }
        ensures { IfOk result (λ path. path ≡ form_at self.now form) }
    {
        match self.node(form) {
            FormNode::Nothing => Ok(Path::Nothing),
            FormNode::Empty => Ok(Path::Empty),
            FormNode::Dot => Ok(Path::Dot),
            FormNode::Loc(loc) => Ok(Path::Loc(loc)),
            FormNode::Fun(fun) => Ok(Path::Fun(fun)),
            FormNode::Cat(first, rest) => {
                let first = Boxed::new(alloc, self.path_of(alloc, first)?)?;
                let rest = Boxed::new(alloc, self.path_of(alloc, rest)?)?;
                Ok(Path::Cat(first, rest))
            }
            FormNode::NoChoice => Ok(Path::Alt(Items::new(alloc))),
            FormNode::Alt(_, _) => Ok(Path::Alt(self.members_of(alloc, form)?)),
            FormNode::Star(inner) => Ok(Path::Star(Boxed::new(
                alloc,
                self.path_of(alloc, inner)?,
            )?)),
            FormNode::Not(inner) => Ok(Path::Not(Boxed::new(alloc, self.path_of(alloc, inner)?)?)),
        }
    }

    /// The members of the Alt at the place.
    #[cycle(writing)]
    fn members_of(&self, alloc: Global, all: usize) -> Result<Items<Path>, OutOfMemory>
        requires within { all < length self.now }
        requires chain { IsChain (form_at self.now all) }
        ensures { IfOk result (λ paths. paths ≡ members (form_at self.now all)) }
    {
        let mut paths = Items::new(alloc);
        let mut left = all;
        while let FormNode::Alt(first, rest) = self.node(left) {
            paths.push(self.path_of(alloc, first)?)?;
            left = rest;
        }
        Ok(paths)
    }
}
