//! Laws of delegation trees. Each is the contract of a function that does nothing.

ghost use Rattle.std.specs.Prelude.{◌≡◌, ◌≤◌, ℕ, List, map, sum_by};
ghost use Rattle.merlin_model.specs.declared.policy.Symbol.{Symbol};
ghost use Rattle.merlin_model.specs.Networks.{Network, AreDifferent};
ghost use Rattle.policy_expansion.specs.declared.policy.Policy.{Policy};
ghost use Rattle.policy_expansion.specs.Kept.{IsExpanded};
ghost use Rattle.policy_check.specs.declared.fault.CheckFault.{CheckFault};
ghost use Rattle.policy_check.specs.declared.fault.CheckFault.TheVariants as check;
ghost use Rattle.policy_check.specs.Rules.{KeepsAllRules, BreaksRule};
ghost use Rattle.topology.specs.Symbols.{network_symbols};
ghost use Rattle.delegation.specs.declared.node.Node.{Node};
ghost use Rattle.delegation.specs.declared.rating.RatedPolicy.{RatedPolicy};
ghost use Rattle.delegation.specs.NamedJoins.{rated_policy, written_policy};
ghost use Rattle.delegation.specs.NamedTrees.{IsNamedTree, AreNamedCompositions, IsCompositionOf, IsEachAccepted, RefinesRoot, statement_count};
ghost use Rattle.delegation.specs.TreeRules.{IsAcceptedTree, IsEachLocallyAccepted};

/// Where each node of a tree is accepted by itself, so that only its own policy and its children's own policies were compared, each is accepted with the compositions
/// of its children, however deep the tree is, and the composition of the first node refines its own policy in localised form.
pub fn local_acceptance_of_a_tree()
    ensures accepted { (net : Network) (nodes : List Node) → IsNamedTree nodes →
        IsEachLocallyAccepted net nodes → IsEachAccepted net nodes }
    ensures refines { (net : Network) (nodes : List Node) (composition : Policy) →
        IsNamedTree nodes → IsEachLocallyAccepted net nodes →
        IsCompositionOf nodes 0 composition → RefinesRoot net nodes composition }
{
    refinement_model::laws::local_acceptance_suffices();
}

/// Where all questions about a tree are answered yes, each node is accepted with the compositions of its children, and the composition of the first node
/// refines its own policy in localised form.
pub fn accepted_trees()
    ensures accepted { (net : Network) (nodes : List Node) → IsNamedTree nodes →
        IsAcceptedTree net (network_symbols net) nodes → IsEachAccepted net nodes }
    ensures refines { (net : Network) (nodes : List Node) (composition : Policy) →
        IsNamedTree nodes → IsAcceptedTree net (network_symbols net) nodes →
        IsCompositionOf nodes 0 composition → RefinesRoot net nodes composition }
{
    local_acceptance_of_a_tree();
}

/// Each tree has a composition for each node. That of the first has as many statements as all nodes together, and no other has more.
pub fn compositions_of_a_tree()
    ensures exist { (nodes : List Node) → IsNamedTree nodes →
        (all : List Policy) × AreNamedCompositions nodes all }
    ensures first { (nodes : List Node) (composition : Policy) → IsNamedTree nodes →
        IsCompositionOf nodes 0 composition →
        statement_count composition ≡ sum_by (λ n. statement_count n.policy) nodes }
    ensures each { (nodes : List Node) (k : ℕ) (composition : Policy) → IsNamedTree nodes →
        IsCompositionOf nodes k composition →
        statement_count composition ≤ sum_by (λ n. statement_count n.policy) nodes }
{}

/// A policy that is written with the rates of its statements has these rates, where ids differ.
pub fn written_rates_are_read_back()
    ensures { (rated : RatedPolicy) →
        AreDifferent (map (λ r. r.statement.id) rated.statements) →
        rated_policy (written_policy rated) ≡ rated }
{}

/// The localised form of a policy may be checked where the policy may, and it keeps all rules where the policy does. A policy that keeps all rules is
/// refused for want of memory alone.
pub fn localised_forms_keep_all_rules()
    ensures expanded { (raw : Policy) →
        IsExpanded raw → IsExpanded (written_policy (rated_policy raw)) }
    ensures kept { (net : Network) (symbols : List Symbol) (raw : Policy) → IsExpanded raw →
        KeepsAllRules net symbols raw →
        KeepsAllRules net symbols (written_policy (rated_policy raw)) }
    ensures unbroken { (net : Network) (symbols : List Symbol) (raw : Policy)
        (fault : CheckFault) → KeepsAllRules net symbols raw →
        BreaksRule net symbols raw fault → fault ≡ check.OutOfMemory }
{}
