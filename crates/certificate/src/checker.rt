//! The checker of trees: it walks over the nodes in preorder, with one box that it changes in place and sets back.

ghost use Rattle.std.specs.Prelude.{ℕ, ◌≡◌, ◌≤◌, ◌<◌, ◌+◌, ◌^◌, Bool, List, length, None, replicate, IfOk, IfErr, OnOk, OnErr};
ghost use Rattle.std.specs.Option.{option_copied};
ghost use Rattle.merlin_model.specs.Programs.{Takes, variables, IsSolution};
ghost use Rattle.merlin_model.specs.Trees.{Refutes, FailsAt, nodes_of, root_box};
ghost use Rattle.certificate.specs.Checks.{IsTreeCheck};

use crate::leaf::{Workspace, leaf_refutes};
use integer_program::{Fixed, Program, is_open};
use merlin_model::OutOfMemory;
use merlin_model::certificate::Tree;
use std::alloc::Global;

/// The first node that fails, in preorder from 0.
#[derive(Clone, Copy)]
pub struct TreeFault {
    pub node: usize,
}

/// A program with a box and a workspace, which a check changes in place and sets back.
#[derive(Drop)]
pub struct Checker<'p, P: Program> {
    program: &'p P,
    fixed: Fixed,
    workspace: Workspace,
    ghost free: { fixed ≡ replicate (variables (P.instance program.now None)) None },
    ghost room: { workspace ≡ variables (P.instance program.now None) },
}

/// A checker of trees for a program. It takes all its memory here.
pub fn new<'p, P: Program>(alloc: Global, program: &'p P) -> Result<Checker<'p, P>, OutOfMemory>
    ensures { IfOk result (λ checker. checker.program.now ≡ program.now) }
{
    let variables = program.variables();
    Ok(Checker {
        program,
        fixed: Fixed::free(alloc, variables)?,
        workspace: Workspace::new(alloc, variables)?,
    })
}

impl<P: Program> Checker<'_, P> {
    /// Whether a tree refutes the program at a cutoff, or without one, so that it has no solution there. It answers the first
    /// node that fails, where the tree's nodes can be counted. It takes no memory.
    pub fn refutes(&mut self, tree: &Tree, cutoff: Option<&P::Cutoff>) -> Result<(), TreeFault>
        requires { Takes (P.takes self.old.program.now) (option_copied cutoff) }
        ensures program { self.new.program ≡ self.old.program }
        ensures fixed { self.new.fixed ≡ self.old.fixed }
        ensures workspace { self.new.workspace ≡ self.old.workspace }
        ensures ok { let stated = P.instance self.old.program.now (option_copied cutoff.entry) in
            OnOk result (Refutes stated tree.now (root_box stated)) }
        ensures none { let stated = P.instance self.old.program.now (option_copied cutoff.entry) in
            OnOk result ((point : List Bool) → ¬ IsSolution stated point) }
        ensures fault { let stated = P.instance self.old.program.now (option_copied cutoff.entry) in
            OnErr result (¬ Refutes stated tree.now (root_box stated)) }
        ensures first { let stated = P.instance self.old.program.now (option_copied cutoff.entry) in
            let root = root_box stated in
            IfErr result (λ fault. length (nodes_of tree.now root) ≤ 2 ^ 64 →
            FailsAt stated tree.now root fault.node) }
    {
        merlin_model::laws::refuted_box_has_no_solution();
        match refute(
            self.program,
            cutoff,
            &mut self.fixed,
            &mut self.workspace,
            tree,
            0,
        ) {
            Ok(_) => Ok(()),
            Err(node) => Err(TreeFault { node }),
        }
    }
}

// The number after the last node of a tree that refutes the box, or the first node that fails, where the first of the tree has
// the number `at`. Counting stops at the greatest number.
fn refute<P: Program>(
    program: &P,
    cutoff: Option<&P::Cutoff>,
    fixed: &mut Fixed,
    workspace: &mut Workspace,
    tree: &Tree,
    at: usize,
) -> Result<usize, usize>
    requires takes { Takes (P.takes program.now) (option_copied cutoff) }
    requires size { length fixed.old ≡ variables (P.instance program.now None) }
    requires room { workspace.old ≡ variables (P.instance program.now None) }
    ensures fixed { fixed.new ≡ fixed.old }
    ensures workspace { workspace.new ≡ workspace.old }
    ensures answer { let stated = P.instance program.now (option_copied cutoff.entry) in
        IsTreeCheck stated tree.now fixed.old at result }
{
    match tree {
        Tree::Leaf(weights) => {
            if leaf_refutes(program, cutoff, fixed, workspace, weights.as_slice()) {
                Ok(at.saturating_add(1))
            } else {
                Err(at)
            }
        }
        Tree::Split {
            variable,
            zero,
            one,
        } => {
            if !is_open(program, cutoff, fixed, *variable) {
                return Err(at);
            }
            fixed.set(*variable, Some(false));
            let low = refute(
                program,
                cutoff,
                fixed,
                workspace,
                zero.get(),
                at.saturating_add(1),
            );
            fixed.set(*variable, None);
            let next = low?;
            fixed.set(*variable, Some(true));
            let high = refute(program, cutoff, fixed, workspace, one.get(), next);
            fixed.set(*variable, None);
            high
        }
        Tree::Unclosed => Err(at),
    }
}
