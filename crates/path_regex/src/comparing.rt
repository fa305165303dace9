//! Comparing paths that share their parts: part by part from the left, at once where both stand at one place, and once for each
//! pair of long ones, since the answer is kept (memoization, Michie 1968).

ghost use Rattle.std.specs.Prelude.{◌≡◌, ◌<◌, length, IfOk};
ghost use Rattle.path_regex.specs.Order.{order};
ghost use Rattle.path_regex.specs.Shared.{form_at, node_rank as rank_of, IsOrderedByParts};

use crate::forms::{FormNode, Forms};
use merlin_model::OutOfMemory;
use std::cmp::Ordering;

/// The place of the node's variant, from 1.
fn node_rank(node: FormNode) -> u8
    ensures { result ≡ rank_of node }
{
    match node {
        FormNode::Nothing => 1,
        FormNode::Empty => 2,
        FormNode::Dot => 3,
        FormNode::Loc(_) => 4,
        FormNode::Fun(_) => 5,
        FormNode::Cat(_, _) => 6,
        FormNode::NoChoice | FormNode::Alt(_, _) => 7,
        FormNode::Star(_) => 8,
        FormNode::Not(_) => 9,
    }
}

impl Forms {
    /// Compares two forms by their variants, and forms of one variant by their parts.
    #[cycle(comparing)]
    pub fn compare(&mut self, first: usize, second: usize) -> Result<Ordering, OutOfMemory>
        requires first { first < length self.old }
        requires second { second < length self.old }
        ensures same { self.new ≡ self.old }
        ensures order { IfOk result (λ found.
            found ≡ order (form_at self.old first) (form_at self.old second)) }
    {
        if first == second {
            return Ok(Ordering::Equal);
        }
        let one = self.node(first);
        let two = self.node(second);
        let ranks = node_rank(one).cmp(&node_rank(two));
        match one {
            FormNode::Nothing | FormNode::Empty | FormNode::Dot => Ok(ranks),
            FormNode::Loc(place) => match two {
                FormNode::Loc(other) => Ok(place.cmp(&other)),
                _ => Ok(ranks),
            },
            FormNode::Fun(function) => match two {
                FormNode::Fun(other) => Ok(function.cmp(&other)),
                _ => Ok(ranks),
            },
            FormNode::Cat(head, rest) => match two {
                FormNode::Cat(other, others) => {
                    self.compare_both((first, second), (head, other), (rest, others))
                }
                _ => Ok(ranks),
            },
            FormNode::NoChoice => match two {
                FormNode::Alt(_, _) => Ok(Ordering::Less),
                _ => Ok(ranks),
            },
            FormNode::Alt(head, rest) => match two {
                FormNode::NoChoice => Ok(Ordering::Greater),
                FormNode::Alt(other, others) => {
                    self.compare_both((first, second), (head, other), (rest, others))
                }
                _ => Ok(ranks),
            },
            FormNode::Star(inner) => match two {
                FormNode::Star(other) => self.compare(inner, other),
                _ => Ok(ranks),
            },
            FormNode::Not(inner) => match two {
                FormNode::Not(other) => self.compare(inner, other),
                _ => Ok(ranks),
            },
        }
    }

    /// Compares two forms by a first part of each and the rest of each, and keeps the answer.
    #[cycle(comparing)]
    fn compare_both(
        &mut self,
        forms: (usize, usize),
        heads: (usize, usize),
        rests: (usize, usize),
    ) -> Result<Ordering, OutOfMemory>
        requires forms { (forms.0 < length self.old) × (forms.1 < length self.old) }
        requires heads { (heads.0 < forms.0) × (heads.1 < forms.1) }
        requires rests { (rests.0 < forms.0) × (rests.1 < forms.1) }
        requires parts { IsOrderedByParts self.old forms heads rests }
        ensures same { self.new ≡ self.old }
        ensures order { IfOk result (λ found.
            found ≡ order (form_at self.old forms.0) (form_at self.old forms.1)) }
    {
        if let Some(known) = self.known_order(forms.0, forms.1) {
            return Ok(known);
        }
        let found = match self.compare(heads.0, heads.1)? {
            Ordering::Equal => self.compare(rests.0, rests.1)?,
            decided => decided,
        };
        self.note_order(forms.0, forms.1, found)?;
        Ok(found)
    }
}
