//! Which replies the texts of trees have. Each law is the contract of a function that does nothing.

ghost use Rattle.std.specs.Prelude.{◌≡◌, ℕ, List, length, sum_by};
ghost use Rattle.merlin_base.specs.declared.status.Status.TheVariants as status;
ghost use Rattle.merlin_model.specs.Networks.{Network};
ghost use Rattle.topology.specs.Symbols.{network_symbols};
ghost use Rattle.delegation.specs.declared.node.Node.{Node};
ghost use Rattle.delegation.specs.NamedTrees.{statement_count};
ghost use Rattle.delegation.specs.TreeRules.{HasFewCells, IsAcceptedTree, IsSoAtEach, IsLocallyAcceptedAt};
ghost use Rattle.delegation_verdict.specs.declared.reply.DelegateReply.{DelegateReply as Reply};
ghost use Rattle.delegation_verdict.specs.declared.reply.DelegateReply.TheVariants as replies;
ghost use Rattle.delegation_verdict.specs.Lines.{delegate_status};
ghost use Rattle.delegation_verdict.specs.Verdict.{StandForTree, Delegates};

use delegation::laws::localised_forms_keep_all_rules;
use delegation_text::laws::tree_texts;
use refinement_model::laws::all_touching_decide;
use topology_rules::laws::one_network;

/// A tree whose nodes are all accepted by themselves has the reply `Accepted` with its counts. One of which everything else is so, but not that,
/// has RefineNo, and any other is refused. In any case two replies to the same texts have one status.
pub fn delegate_replies()
    ensures accepted { (tree topology : List ℕ) (texts : List (List ℕ)) (net : Network)
        (nodes : List Node) (reply : Reply) → StandForTree tree topology texts net nodes →
        IsAcceptedTree net (network_symbols net) nodes → Delegates tree topology texts reply →
        reply ≡ replies.Accepted (length nodes) (sum_by (λ n. statement_count n.policy) nodes) }
    ensures wider { (tree topology : List ℕ) (texts : List (List ℕ)) (net : Network)
        (nodes : List Node) (reply : Reply) → StandForTree tree topology texts net nodes →
        HasFewCells net (network_symbols net) nodes →
        ¬ IsSoAtEach nodes (IsLocallyAcceptedAt net (network_symbols net) nodes) →
        Delegates tree topology texts reply → delegate_status reply ≡ status.RefineNo }
    ensures refused { (tree topology : List ℕ) (texts : List (List ℕ)) (net : Network)
        (nodes : List Node) (reply : Reply) → StandForTree tree topology texts net nodes →
        ¬ HasFewCells net (network_symbols net) nodes →
        Delegates tree topology texts reply → delegate_status reply ≡ status.Refused }
    ensures one { (tree topology : List ℕ) (texts : List (List ℕ)) (reply other : Reply) →
        Delegates tree topology texts reply → Delegates tree topology texts other →
        delegate_status other ≡ delegate_status reply }
{
    one_network();
    tree_texts();
    all_touching_decide();
    localised_forms_keep_all_rules();
}
