//! Which replies the contents of files have. Each law is the contract of a function that does
//! nothing.

ghost use Rattle.std.specs.Prelude.{◌≡◌, ◌≢◌, ◌↔◌, ◌≤◌, ◌<◌, ◌+◌, ◌^◌, ◌⊎◌, ◌∷◌, [], ℕ, List, None, length, sum_by};
ghost use Rattle.merlin_base.specs.Outside.{KnownContents};
ghost use Rattle.merlin_base.specs.declared.status.Status.TheVariants as status;
ghost use Rattle.merlin_model.specs.Networks.{Network};
ghost use Rattle.merlin_model.specs.Programs.{Program};
ghost use Rattle.merlin_model.specs.Trees.{Refutes, root_box};
ghost use Rattle.merlin_model.specs.declared.certificate.Tree.{Tree};
ghost use Rattle.merlin.specs.declared.compile.CompileReply.{CompileReply};
ghost use Rattle.merlin.specs.declared.refute.RefuteReply.{RefuteReply};
ghost use Rattle.merlin.specs.declared.refute.RefuteReply.TheVariants as refute;
ghost use Rattle.merlin.specs.Compile.{CompileForm, IsCompileReply, compile_status};
ghost use Rattle.merlin_model.specs.declared.policy.Ends.{Ends};
ghost use Rattle.merlin_model.specs.Programs.{variables};
ghost use Rattle.cutoff_program.specs.Flows.{program_at};
ghost use Rattle.cutoff_program.specs.declared.flow.Problem.{Problem};
ghost use Rattle.policy_check.specs.Checked.{CheckedPolicy};
ghost use Rattle.merlin_compile.specs.Input.{IsInput};
ghost use Rattle.merlin_compile.specs.Completeness.{GuaranteesNothing, HasFeasibleWalks, IsProblemFor, NeverCouples};
ghost use Rattle.merlin_model.specs.Policies.{Policy};
ghost use Rattle.refinement_model.specs.Refinement.{Refines};
ghost use Rattle.negotiator.specs.CellCounts.{HasFewCellsTogether};
ghost use Rattle.negotiator.specs.Refusals.{IsRefinement};
ghost use Rattle.merlin.specs.declared.refine.RefineReply.{RefineReply};
ghost use Rattle.merlin.specs.declared.refine.RefineReply.TheVariants as refine;
ghost use Rattle.merlin.specs.Refine.{AreComparable, HasManyCellsTogether};
ghost use Rattle.merlin.specs.Refine.{IsRefineReply, refine_status};
ghost use Rattle.merlin.specs.Refute.{IsProgramOf, IsTreeOf, IsRefuteReply, refute_status};
ghost use Rattle.fair_share.specs.declared.share.Share.{Share};
ghost use Rattle.fair_share.specs.Shares.{Demands, IsSound};
ghost use Rattle.fair_share.specs.Reading.{IsDemandsText};
ghost use Rattle.merlin.specs.declared.fair.FairReply.{FairReply};
ghost use Rattle.merlin.specs.declared.fairness.FairnessReply.{FairnessReply};
ghost use Rattle.merlin.specs.declared.fairness.FairnessReply.TheVariants as fairness;
ghost use Rattle.merlin.specs.Fair.{IsFairReply, fair_status};
ghost use Rattle.merlin.specs.Fairness.{AreReadAs, IsFairnessReply, fairness_status};
ghost use Rattle.merlin_model.specs.declared.network.FnDecl.{FnDecl};
ghost use Rattle.merlin_model.specs.Packets.{Packet};
ghost use Rattle.merlin_model.specs.Functions.{answers_of, RunsBy};
ghost use Rattle.merlin_model.specs.Machine.{Visit, End, start};
ghost use Rattle.packet_trace.specs.declared.trace.TheConstants.{MAX_HOPS};
ghost use Rattle.packet_trace.specs.Trace.{MakesHopsBy};
ghost use Rattle.merlin.specs.declared.trace.TraceReply.{TraceReply};
ghost use Rattle.merlin.specs.declared.trace.TraceReply.TheVariants as trace;
ghost use Rattle.merlin_base.specs.Texts.{joined};
ghost use Rattle.config_read.specs.declared.result.ResultText.{ResultText};
ghost use Rattle.config_read.specs.Answers.{IsTextOfResult};
ghost use Rattle.merlin.specs.declared.wire.WireReply.{WireReply};
ghost use Rattle.merlin.specs.Inputs.{AreNetworkAndResult};
ghost use Rattle.merlin.specs.Wire.{WireForm, IsSwitchNamed, rules_at, message_lines};
ghost use Rattle.merlin.specs.Wire.{IsWireReply, wire_lines, wire_status};
ghost use Rattle.merlin_model.specs.declared.config.Rule.{Rule};
ghost use Rattle.config_text.specs.Lines.{rule_lines};
ghost use Rattle.topology_rules.specs.Faults.{IsTopology};
ghost use Rattle.merlin.specs.declared.unwire.UnwireReply.{UnwireReply};
ghost use Rattle.merlin.specs.Unwire.{UnwireForm, BeginsWithMessages};
ghost use Rattle.merlin.specs.Unwire.{IsUnwireReply, unwire_lines, unwire_status};
ghost use Rattle.merlin.specs.Trace.{TraceForm, IsTracedFrom, IsTraceReply, run_lines, trace_lines, trace_status};
ghost use Rattle.merlin.specs.Reading.{AreContents, IsFirstTooLong, RoseIn};
ghost use Rattle.merlin.specs.Commands.{Delegating, Form, files_of};
ghost use Rattle.merlin.specs.Contents.{AreContentsOf, IsFirstTooLongOf, RoseInFilesOf};
ghost use Rattle.topology.specs.Symbols.{network_symbols};
ghost use Rattle.delegation.specs.declared.node.Node.{Node};
ghost use Rattle.delegation.specs.NamedTrees.{statement_count};
ghost use Rattle.delegation.specs.TreeRules.{HasFewCells, IsAcceptedTree, IsLocallyAcceptedAt, IsSoAtEach};
ghost use Rattle.delegation_verdict.specs.declared.reply.DelegateReply.{DelegateReply};
ghost use Rattle.delegation_verdict.specs.declared.reply.DelegateReply.TheVariants as delegate;
ghost use Rattle.delegation_verdict.specs.Lines.{delegate_status};
ghost use Rattle.delegation_verdict.specs.Verdict.{StandForTree};
ghost use Rattle.merlin.specs.Delegate.{IsDelegateReply};

use delegation_verdict::laws::delegate_replies;
use openflow_wire::message_is_read_back;
use topology_rules::laws::one_network;

/// Texts that stand for an input, which nothing refuses: without guarantees it is done; with a feasible assignment it is done, or the budget is spent; without one
/// it is infeasible, or the budget is spent. A budget of all nodes that a tree over the program's variables may have is never spent, nor is any where
/// shortest paths do not hinder one another. In any case two replies to the same files are both refusals or neither is.
pub fn compile_replies()
    ensures done { (form : CompileForm) (policy topology : List ℕ) (net : Network)
        (checked : CheckedPolicy) (ends : List Ends) (reply : CompileReply) → 0 < form.budget →
        IsInput policy topology net checked ends → GuaranteesNothing checked.policy →
        IsCompileReply form (policy ∷ topology ∷ []) reply → compile_status reply ≡ status.Done }
    ensures feasible { (form : CompileForm) (policy topology : List ℕ) (net : Network)
        (checked : CheckedPolicy) (ends : List Ends) (reply : CompileReply) →
        IsInput policy topology net checked ends → HasFeasibleWalks net checked.policy ends →
        IsCompileReply form (policy ∷ topology ∷ []) reply →
        (compile_status reply ≡ status.Done) ⊎ (compile_status reply ≡ status.Budget) }
    ensures infeasible { (form : CompileForm) (policy topology : List ℕ) (net : Network)
        (checked : CheckedPolicy) (ends : List Ends) (reply : CompileReply) →
        IsInput policy topology net checked ends → ¬ HasFeasibleWalks net checked.policy ends →
        IsCompileReply form (policy ∷ topology ∷ []) reply →
        (compile_status reply ≡ status.Infeasible) ⊎ (compile_status reply ≡ status.Budget) }
    ensures enough { (form : CompileForm) (policy topology : List ℕ) (net : Network)
        (checked : CheckedPolicy) (ends : List Ends) (problem : Problem) (reply : CompileReply) →
        IsInput policy topology net checked ends →
        IsProblemFor net checked ends form.objective problem →
        2 ^ (variables (program_at problem None) + 1) ≤ form.budget + 1 →
        IsCompileReply form (policy ∷ topology ∷ []) reply →
        ¬ (compile_status reply ≡ status.Budget) }
    ensures uncoupled { (form : CompileForm) (policy topology : List ℕ) (net : Network)
        (checked : CheckedPolicy) (ends : List Ends) (problem : Problem) (reply : CompileReply) →
        IsInput policy topology net checked ends →
        IsProblemFor net checked ends form.objective problem →
        NeverCouples net checked.policy ends form.objective problem →
        IsCompileReply form (policy ∷ topology ∷ []) reply →
        ¬ (compile_status reply ≡ status.Budget) }
    ensures one { (form : CompileForm) (contents : List (List ℕ)) (reply other : CompileReply) →
        IsCompileReply form contents reply → IsCompileReply form contents other →
        compile_status reply ≡ status.Refused → compile_status other ≡ status.Refused }
{
    merlin_compile::laws::inputs_are_not_refused();
    merlin_compile::laws::inputs_have_results();
}

/// Of policies that keep all rules over the network, a child that refines its parent has the reply
/// `Refines` where their cells are few, and one that does not has RefineNo; where their cells are many,
/// that is the reply. In any case two replies to the same files have one status.
pub fn refine_replies()
    ensures refines { (p c t : List ℕ) (net : Network) (parent child : Policy)
        (reply : RefineReply) → AreComparable p c t net parent child →
        IsRefinement net parent child → IsRefineReply (p ∷ c ∷ t ∷ []) reply →
        reply ≡ refine.Refines }
    ensures wider { (p c t : List ℕ) (net : Network) (parent child : Policy)
        (reply : RefineReply) → AreComparable p c t net parent child →
        HasFewCellsTogether net parent child → ¬ Refines net parent child →
        IsRefineReply (p ∷ c ∷ t ∷ []) reply → refine_status reply ≡ status.RefineNo }
    ensures cells { (p c t : List ℕ) (net : Network) (parent child : Policy)
        (reply : RefineReply) → AreComparable p c t net parent child →
        HasManyCellsTogether net parent child → IsRefineReply (p ∷ c ∷ t ∷ []) reply →
        reply ≡ refine.TooManyCells }
    ensures one { (contents : List (List ℕ)) (reply other : RefineReply) →
        IsRefineReply contents reply → IsRefineReply contents other →
        refine_status other ≡ refine_status reply }
{
    one_network();
    refinement_model::laws::all_touching_decide();
}

/// A tree that refutes the program has the reply `Refuted`, and one that does not has CheckNo. In any
/// case two replies to the same files have one status.
pub fn refute_replies()
    ensures refuted { (p t : List ℕ) (program : Program) (tree : Tree) (reply : RefuteReply) →
        IsProgramOf p program → IsTreeOf t tree → Refutes program tree (root_box program) →
        IsRefuteReply (p ∷ t ∷ []) reply → reply ≡ refute.Refuted }
    ensures short { (p t : List ℕ) (program : Program) (tree : Tree) (reply : RefuteReply) →
        IsProgramOf p program → IsTreeOf t tree → ¬ Refutes program tree (root_box program) →
        IsRefuteReply (p ∷ t ∷ []) reply → refute_status reply ≡ status.CheckNo }
    ensures one { (contents : List (List ℕ)) (reply other : RefuteReply) →
        IsRefuteReply contents reply → IsRefuteReply contents other →
        refute_status other ≡ refute_status reply }
{}

/// Demands that bytes stand for are divided. In any case two replies to the same file have one status.
pub fn fair_replies()
    ensures done { (bytes : List ℕ) (demands : Demands) (reply : FairReply) →
        IsDemandsText bytes demands → IsFairReply (bytes ∷ []) reply →
        fair_status reply ≡ status.Done }
    ensures one { (contents : List (List ℕ)) (reply other : FairReply) →
        IsFairReply contents reply → IsFairReply contents other →
        fair_status other ≡ fair_status reply }
{}

/// A division of which each line is right and that is feasible has the reply `Sound`, and any other
/// has CheckNo. In any case two replies to the same files have one status.
pub fn fairness_replies()
    ensures sound { (bytes text : List ℕ) (demands : Demands) (shares : List Share)
        (reply : FairnessReply) → AreReadAs bytes text demands shares → IsSound demands shares →
        IsFairnessReply (bytes ∷ text ∷ []) reply → reply ≡ fairness.Sound }
    ensures unsound { (bytes text : List ℕ) (demands : Demands) (shares : List Share)
        (reply : FairnessReply) → AreReadAs bytes text demands shares → ¬ IsSound demands shares →
        IsFairnessReply (bytes ∷ text ∷ []) reply → fairness_status reply ≡ status.CheckNo }
    ensures one { (contents : List (List ℕ)) (reply other : FairnessReply) →
        IsFairnessReply contents reply → IsFairnessReply contents other →
        fairness_status other ≡ fairness_status reply }
{}

/// Where each packet function answers one packet: a run that ends within fewer hops than the most is told whole, and a packet of which the machine makes
/// the most hops has the reply `StillRunning`. In any case two replies to the same files and words have one status.
pub fn trace_replies()
    ensures ended { (answer : FnDecl → Packet → Packet) (form : TraceForm)
        (topology result : List ℕ) (of : IsTracedFrom form topology result) (visits : List Visit)
        (end : End) (reply : TraceReply) →
        RunsBy of.net of.read.config (answers_of answer) (start of.host of.packet) visits end →
        length visits < MAX_HOPS →
        IsTraceReply (answers_of answer) form (topology ∷ result ∷ []) reply →
        (trace_status reply ≡ status.Done) × (trace_lines reply ≡ run_lines of.net visits end) }
    ensures endless { (answer : FnDecl → Packet → Packet) (form : TraceForm)
        (topology result : List ℕ) (of : IsTracedFrom form topology result) (reply : TraceReply) →
        MakesHopsBy of.net of.read.config (answers_of answer) (start of.host of.packet) MAX_HOPS →
        IsTraceReply (answers_of answer) form (topology ∷ result ∷ []) reply →
        reply ≡ trace.StillRunning }
    ensures one { (answer : FnDecl → Packet → Packet) (form : TraceForm)
        (contents : List (List ℕ)) (reply other : TraceReply) →
        IsTraceReply (answers_of answer) form contents reply →
        IsTraceReply (answers_of answer) form contents other →
        trace_status other ≡ trace_status reply }
{
    one_network();
}

/// A switch of the network has its messages. In any case two replies to the same files and words have one status.
pub fn wire_replies()
    ensures written { (form : WireForm) (topology result : List ℕ) (net : Network)
        (read : ResultText) (switch : ℕ) (reply : WireReply) →
        AreNetworkAndResult topology result net read → IsSwitchNamed net form.switch switch →
        IsWireReply form (topology ∷ result ∷ []) reply → (wire_status reply ≡ status.Done)
        × (wire_lines reply ≡ message_lines 1 (rules_at switch read.config.rules)) }
    ensures one { (form : WireForm) (contents : List (List ℕ)) (reply other : WireReply) →
        IsWireReply form contents reply → IsWireReply form contents other →
        wire_status other ≡ wire_status reply }
{
    one_network();
}

/// Lines of messages for a switch of the network have the lines of their rules. In any case two replies to the same files and words have one
/// status.
pub fn unwire_replies()
    ensures read { (form : UnwireForm) (topology messages : List ℕ) (net : Network) (switch : ℕ)
        (rules : List Rule) (reply : UnwireReply) → IsTopology topology net →
        IsSwitchNamed net form.switch switch → BeginsWithMessages switch messages rules [] →
        IsUnwireReply form (topology ∷ messages ∷ []) reply →
        (unwire_status reply ≡ status.Done) × (unwire_lines reply ≡ rule_lines net rules) }
    ensures one { (form : UnwireForm) (contents : List (List ℕ)) (reply other : UnwireReply) →
        IsUnwireReply form contents reply → IsUnwireReply form contents other →
        unwire_status other ≡ unwire_status reply }
{
    one_network();
}

/// The messages that are written of a switch's rules are those of these rules, and of no more.
pub fn messages_are_read_back()
    ensures { (net : Network) (bytes : List ℕ) (read : ResultText) (switch : ℕ) →
        IsTextOfResult net bytes read → length read.config.rules < 2 ^ 32 →
        BeginsWithMessages switch (joined (message_lines 1 (rules_at switch read.config.rules)))
        (rules_at switch read.config.rules) [] }
{
    message_is_read_back();
}

/// For each command but `delegate` the files that its words name are all its files.
pub fn words_name_all_files()
    ensures contents { (known : KnownContents) (form : Form) (contents : List (List ℕ)) →
        form.name ≢ Delegating →
        AreContentsOf known form contents ↔ AreContents known (files_of form) contents }
    ensures too_long { (known : KnownContents) (form : Form) (name : List ℕ) →
        form.name ≢ Delegating →
        IsFirstTooLongOf known form name ↔ IsFirstTooLong known (files_of form) name }
    ensures faults { (known : KnownContents) (form : Form) (before now : List ℕ → ℕ) →
        form.name ≢ Delegating →
        RoseInFilesOf known form before now ↔ RoseIn (files_of form) before now }
{}

/// Texts that stand for a tree over a network: where each node is accepted by itself, that is the reply, with the numbers of the nodes and of all
/// statements; where all else is so and some node is not accepted, the status is RefineNo; and where something else is not so, they are refused. In any
/// case two replies to the same files have one status.
pub fn delegation_replies()
    ensures accepted { (tree topology : List ℕ) (policies : List (List ℕ)) (net : Network)
        (nodes : List Node) (reply : DelegateReply) →
        StandForTree tree topology policies net nodes →
        IsAcceptedTree net (network_symbols net) nodes →
        IsDelegateReply (tree ∷ topology ∷ policies) reply → reply
        ≡ delegate.Accepted (length nodes) (sum_by (λ n. statement_count n.policy) nodes) }
    ensures wider { (tree topology : List ℕ) (policies : List (List ℕ)) (net : Network)
        (nodes : List Node) (reply : DelegateReply) →
        StandForTree tree topology policies net nodes →
        HasFewCells net (network_symbols net) nodes →
        ¬ IsSoAtEach nodes (IsLocallyAcceptedAt net (network_symbols net) nodes) →
        IsDelegateReply (tree ∷ topology ∷ policies) reply →
        delegate_status reply ≡ status.RefineNo }
    ensures refused { (tree topology : List ℕ) (policies : List (List ℕ)) (net : Network)
        (nodes : List Node) (reply : DelegateReply) →
        StandForTree tree topology policies net nodes →
        ¬ HasFewCells net (network_symbols net) nodes →
        IsDelegateReply (tree ∷ topology ∷ policies) reply →
        delegate_status reply ≡ status.Refused }
    ensures one { (contents : List (List ℕ)) (reply other : DelegateReply) →
        IsDelegateReply contents reply → IsDelegateReply contents other →
        delegate_status other ≡ delegate_status reply }
{
    delegate_replies();
}
