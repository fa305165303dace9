//! How many statements the composition of the first node has. Each other node is below the first, so that its composition has all statements of the
//! tree, and every other composition no more.

ghost use Rattle.std.specs.Prelude.{◌≡◌, ◌<◌, ◌+◌, List, IfSome, IfNone, IfOk, IfErr, OnOk, sum_by};
ghost use Rattle.merlin_model.specs.declared.policy.Symbol.{Symbol};
ghost use Rattle.merlin_model.specs.Networks.{Network};
ghost use Rattle.policy_expansion.specs.declared.limits.TheConstants.{MAX_STATEMENTS};
ghost use Rattle.delegation.specs.NamedTrees.{IsNamedTree, statement_count};
ghost use Rattle.delegation.specs.TreeRules.{IsSoAtEach, HasSmallComposition, HasSoundParts, BreaksTree};

use crate::fault::DelegationFault;
use crate::node::Node;
use policy_expansion::Policy;
use policy_expansion::limits::MAX_STATEMENTS;

// How many statements a policy has, with its default.
fn count_of(policy: &Policy) -> usize
    ensures { result ≡ statement_count policy.now }
{
    let statements = policy.statements.as_slice().len();
    if policy.default_path.is_some() {
        statements + 1
    } else {
        statements
    }
}

// What the statements of all nodes leave of the limit, if they are within it.
fn room_beside(nodes: &[Node]) -> Option<usize>
    ensures some { IfSome result (λ left.
        left + sum_by (λ n. statement_count n.policy) nodes.now ≡ MAX_STATEMENTS) }
    ensures none { IfNone result
        (MAX_STATEMENTS < sum_by (λ n. statement_count n.policy) nodes.now) }
{
    let mut left = MAX_STATEMENTS;
    for node in nodes {
        left = left.checked_sub(count_of(&node.policy))?;
    }
    Some(left)
}

/// Asks that no composition has more statements than a policy may have, and answers how many all nodes have.
pub fn ask_count(nodes: &[Node]) -> Result<usize, DelegationFault>
    requires { IsNamedTree nodes.now }
    ensures ok { OnOk result (IsSoAtEach nodes.now (HasSmallComposition nodes.now)) }
    ensures count { IfOk result (λ count.
        count ≡ sum_by (λ n. statement_count n.policy) nodes.now) }
    ensures err { (net : Network) (symbols : List Symbol) → HasSoundParts net symbols nodes.now →
        IfErr result (BreaksTree net symbols nodes.now) }
{
    match room_beside(nodes) {
        Some(left) => Ok(MAX_STATEMENTS - left),
        None => Err(DelegationFault::TooManyStatements {
            node: 0,
            count: MAX_STATEMENTS as u64 + 1,
        }),
    }
}
