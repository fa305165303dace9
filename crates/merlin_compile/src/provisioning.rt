//! Walks and a configuration for a policy over a network, or why there are none.
ghost use Rattle.std.specs.Prelude.{ℕ, ◌≡◌, ◌≤◌, ◌<◌, List, IfErr, IfOk};
ghost use Rattle.std.specs.List.{AllZip};
ghost use Rattle.merlin_model.specs.Networks.{Network};
ghost use Rattle.merlin_model.specs.Rates.{IsGuaranteed};
ghost use Rattle.merlin_model.specs.Assignments.{IsAssignment, IsFeasible};
ghost use Rattle.cutoff_program.specs.Walks.{IsSimple};
ghost use Rattle.topology.specs.Symbols.{network_symbols};
ghost use Rattle.policy_expansion.specs.declared.policy.Policy.{Policy as NamedPolicy};
ghost use Rattle.policy_flows.specs.Faults.{RefusesStatements};
ghost use Rattle.policy_parser.specs.Policies.{IsParsed};
ghost use Rattle.policy_check.specs.Checked.{IsCheckOf};
ghost use Rattle.walk_search.specs.Found.{IsFoundFor};
ghost use Rattle.policy_flows.specs.declared.fault.ProgramFault.TheVariants as program_fault;
ghost use Rattle.walk_search.specs.Parts.{checked_parts};
ghost use Rattle.walk_search.specs.declared.found.WalksFound.TheVariants as found;
ghost use Rattle.refusal_text.specs.Refusals.{NamesLocations};
ghost use Rattle.merlin_compile.specs.Input.{WasChecked};
ghost use Rattle.merlin_compile.specs.Provisions.{IsRefusedEnds};
ghost use Rattle.merlin_compile.specs.Causes.{RefusesChecked, RefusesPolicy};
ghost use Rattle.merlin_compile.specs.Compiled.{IsProvisioned};
ghost use Rattle.merlin_compile.specs.Provisions.{IsCheckOfSome, IsAnyCheck, HaveOnePairs, HaveFewRules};
ghost use Rattle.merlin_compile.specs.Provisions.{IsProvisionOf, IsProvisionWithin, IsProvisionFor};
ghost use Rattle.merlin_compile.specs.Provisions.{IsProgramRefused, IsPlanRefused, IsFoundForSome};
ghost use Rattle.merlin_compile.specs.Provisions.{AreGuaranteedEnds, NamesGuaranteed};

use crate::fault::CompileFault;
use crate::identifying::{id_of, ids_of};
use config_text::Config;
use merlin_base::{Name, OutOfMemory};
use merlin_model::certificate::Tree;
use merlin_model::limits::MAX_NODES;
use merlin_model::policy::{Ends, Objective, Symbol, Value};
use openflow_rules::{RulePlan, plan};
use policy_check::{Checked, EndsFault, check, ends};
use policy_configuration::configuration_of;
use policy_flows::ProgramFault;
use policy_parser::Policy;
use refusal_text::ends_fault_text;
use sqlite_items::Items;
use std::alloc::Global;
use topology::Topology;
use walk_search::{WalksFound, find_walks, words_of};

/// What is found for a policy over a network that is lent: walks of least value with the configuration that is made of them, that
/// no assignment is feasible, or what a spent search leaves.
#[derive(Drop)]
pub enum Provision {
    Least {
        ids: Items<Name>,
        value: Value,
        walks: Items<Items<Symbol>>,
        config: Config,
        tree: Tree,
    },
    Infeasible {
        tree: Tree,
    },
    Budget {
        ids: Items<Name>,
        best: Option<(Value, Items<Items<Symbol>>)>,
        bound: Value,
        tree: Tree,
    },
}

// The configuration of feasible walks for the guaranteed statements.
fn config_of(
    alloc: Global,
    net: &Topology,
    checked: &Checked,
    ends: &[Ends],
    plan: &RulePlan,
    walks: &[Items<Symbol>],
) -> Result<Config, OutOfMemory>
    requires plan { plan.now ≡ record {
      net = net.now;
      checked = checked.now;
      ends = ends.now;
    } }
    requires rules { HaveFewRules net.now checked.now ends.now }
    requires assigned { IsAssignment net.now checked.now.policy ends.now walks.now }
    requires simple { AllZip
        (λ e w. IsSimple ((checked_parts net.now checked.now).automaton e.statement) w)
        ends.now walks.now }
    requires feasible { IsFeasible net.now checked.now.policy ends.now walks.now }
    ensures { IfOk result (IsProvisioned net.now checked.now ends.now walks.now) }
{
    policy_configuration::laws::checked_policies_are_sound();
    walk_search::laws::simple_walks_have_different_vertices();
    configuration_model::laws::made_is_compiled();
    configuration_model::laws::made_keeps_caps();
    configuration_model::laws::made_meets_guarantees();
    let words = words_of(alloc, walks)?;
    configuration_of(alloc, net, checked, ends, plan, &words)
}

// Least walks with their configuration.
fn least_of(
    alloc: Global,
    checked: &Checked,
    ends: &[Ends],
    value: Value,
    walks: Items<Items<Symbol>>,
    config: Config,
    tree: Tree,
) -> Result<Provision, OutOfMemory>
    requires { AreGuaranteedEnds checked.now.policy ends.now }
    ensures { (net : Network) (objective : Objective) (budget : ℕ) →
        IsProvisioned net checked.now ends.now walks config →
        IsFoundFor net checked.now.policy (checked_parts net checked.now) ends.now objective
        budget (found.Least value walks tree) →
        IfOk result (IsProvisionOf net checked.now ends.now objective budget) }
{
    let ids = ids_of(alloc, checked, ends)?;
    Ok(Provision::Least {
        ids,
        value,
        walks,
        config,
        tree,
    })
}

// What a spent search leaves, with the ids of the statements.
fn spent_of(
    alloc: Global,
    checked: &Checked,
    ends: &[Ends],
    best: Option<(Value, Items<Items<Symbol>>)>,
    bound: Value,
    tree: Tree,
) -> Result<Provision, OutOfMemory>
    requires { AreGuaranteedEnds checked.now.policy ends.now }
    ensures { (net : Network) (objective : Objective) (budget : ℕ) →
        IsFoundFor net checked.now.policy (checked_parts net checked.now) ends.now objective
        budget (found.Budget best bound tree) →
        IfOk result (IsProvisionOf net checked.now ends.now objective budget) }
{
    let ids = ids_of(alloc, checked, ends)?;
    Ok(Provision::Budget {
        ids,
        best,
        bound,
        tree,
    })
}

// What comes of what is found: of least walks a configuration is made.
fn provision_with(
    alloc: Global,
    net: &Topology,
    checked: &Checked,
    ends: &[Ends],
    plan: &RulePlan,
    found: WalksFound,
) -> Result<Provision, OutOfMemory>
    requires plan { plan.now ≡ record {
      net = net.now;
      checked = checked.now;
      ends = ends.now;
    } }
    requires rules { HaveFewRules net.now checked.now ends.now }
    requires found { IsFoundForSome net.now checked.now ends.now found }
    ensures { (objective : Objective) (budget : ℕ) →
        IsFoundFor net.now checked.now.policy (checked_parts net.now checked.now) ends.now
        objective budget found →
        IfOk result (IsProvisionOf net.now checked.now ends.now objective budget) }
{
    match found {
        WalksFound::Least { value, walks, tree } => {
            let config = config_of(alloc, net, checked, ends, plan, walks.as_slice())?;
            least_of(alloc, checked, ends, value, walks, config, tree)
        }
        WalksFound::Infeasible { tree } => Ok(Provision::Infeasible { tree }),
        WalksFound::Budget { best, bound, tree } => {
            spent_of(alloc, checked, ends, best, bound, tree)
        }
    }
}

// The refusal of a guarantee that is too heavy for a link, by its id.
fn heavy_fault(alloc: Global, checked: &Checked, statement: usize, link: usize) -> CompileFault
    requires { IsGuaranteed checked.now.policy statement }
    ensures { (net : Network) (ends : List Ends) → RefusesStatements net
        (checked_parts net checked.now) ends (program_fault.Heavy statement link) →
        IsProgramRefused net checked.now ends result }
{
    match id_of(alloc, checked, statement) {
        Ok(id) => CompileFault::Heavy { id, link },
        Err(OutOfMemory) => CompileFault::OutOfMemory,
    }
}

// The refusal that a fault of the program is.
fn program_fault_of(alloc: Global, checked: &Checked, fault: ProgramFault) -> CompileFault
    requires { NamesGuaranteed checked.now.policy fault }
    ensures { (net : Network) (ends : List Ends) →
        RefusesStatements net (checked_parts net checked.now) ends fault →
        IsProgramRefused net checked.now ends result }
{
    match fault {
        ProgramFault::Heavy { statement, link } => heavy_fault(alloc, checked, statement, link),
        ProgramFault::Vertices { .. } => CompileFault::Program(fault),
        ProgramFault::Edges { .. } => CompileFault::Program(fault),
        ProgramFault::OutOfMemory => CompileFault::OutOfMemory,
    }
}

// Walks and a configuration by a plan of rules.
fn provision_by(
    alloc: Global,
    net: &Topology,
    checked: &Checked,
    ends: &[Ends],
    plan: &RulePlan,
    objective: Objective,
    budget: usize,
) -> Result<Provision, CompileFault>
    requires some { 0 < budget }
    requires most { budget ≤ MAX_NODES }
    requires plan { plan.now ≡ record {
      net = net.now;
      checked = checked.now;
      ends = ends.now;
    } }
    requires rules { HaveFewRules net.now checked.now ends.now }
    ensures ok { IfOk result (IsProvisionOf net.now checked.now ends.now objective budget) }
    ensures err { IfErr result (IsProgramRefused net.now checked.now ends.now) }
{
    policy_configuration::laws::checked_policies_are_sound();
    match find_walks(alloc, net, checked, ends, objective, budget) {
        Ok(found) => Ok(provision_with(alloc, net, checked, ends, plan, found)?),
        Err(fault) => Err(program_fault_of(alloc, checked, fault)),
    }
}

// Walks and a configuration for a checked policy with these ends of its guarantees.
fn provision_between(
    alloc: Global,
    net: &Topology,
    checked: &Checked,
    ends: &[Ends],
    objective: Objective,
    budget: usize,
) -> Result<Provision, CompileFault>
    requires some { 0 < budget }
    requires most { budget ≤ MAX_NODES }
    requires pairs { HaveOnePairs net.now checked.now ends.now }
    ensures ok { IfOk result (IsProvisionWithin net.now checked.now ends.now objective budget) }
    ensures err { IfErr result (IsPlanRefused net.now checked.now ends.now) }
{
    match plan(alloc, checked, ends, net) {
        Ok(plan) => provision_by(alloc, net, checked, ends, &plan, objective, budget),
        Err(fault) => Err(CompileFault::Rules(fault)),
    }
}

// The refusal that a fault of ends is over a network.
fn refused_ends(alloc: Global, net: &Topology, fault: EndsFault) -> CompileFault
    requires { NamesLocations net.now fault }
    ensures { IsRefusedEnds net.now fault result }
{
    match ends_fault_text(alloc, net, &fault) {
        Ok(text) => CompileFault::Ends { fault, text },
        Err(_) => CompileFault::OutOfMemory,
    }
}

// Walks and a configuration for a checked policy.
fn provision_for(
    alloc: Global,
    net: &Topology,
    checked: &Checked,
    objective: Objective,
    budget: usize,
) -> Result<Provision, CompileFault>
    requires some { 0 < budget }
    requires most { budget ≤ MAX_NODES }
    requires checked { IsAnyCheck net.now checked.now }
    ensures ok { (raw : NamedPolicy) → WasChecked net.now raw checked.now →
        IfOk result (IsProvisionFor net.now raw objective budget) }
    ensures err { (raw : NamedPolicy) → WasChecked net.now raw checked.now →
        IfErr result (RefusesChecked net.now raw checked.now) }
{
    match ends(alloc, checked, net) {
        Ok(ends) => provision_between(alloc, net, checked, &ends, objective, budget),
        Err(fault) => Err(refused_ends(alloc, net, fault)),
    }
}

// The same for the policy that was checked.
fn provision_checked(
    alloc: Global,
    net: &Topology,
    checked: &Checked,
    objective: Objective,
    budget: usize,
) -> Result<Provision, CompileFault>
    requires some { 0 < budget }
    requires most { budget ≤ MAX_NODES }
    requires checked { IsCheckOfSome net.now checked.now }
    ensures ok { (raw : NamedPolicy) → IsCheckOf net.now (network_symbols net.now) raw checked.now →
        IfOk result (IsProvisionFor net.now raw objective budget) }
    ensures err { (raw : NamedPolicy) → IsCheckOf net.now (network_symbols net.now) raw checked.now
        → IfErr result (RefusesChecked net.now raw checked.now) }
{
    let _ = checked.statements();
    let _ = checked.automata();
    provision_for(alloc, net, checked, objective, budget)
}

/// Walks and a configuration for a policy over a network, by a search of at most so many nodes.
///
/// # Errors
/// The first of: the first rule that is broken; what is wrong with the ends of guaranteed statements; the first limit that tags, cells or
/// entries pass; and that the program of the guaranteed statements has too many vertices or edges, or a statement that is too heavy on a link.
pub fn provide(
    alloc: Global,
    policy: &Policy,
    net: &Topology,
    objective: Objective,
    budget: usize,
) -> Result<Provision, CompileFault>
    requires some { 0 < budget }
    requires most { budget ≤ MAX_NODES }
    requires parsed { IsParsed policy.now }
    ensures ok { IfOk result (IsProvisionFor net.now policy.now objective budget) }
    ensures err { IfErr result (RefusesPolicy net.now policy.now) }
{
    match check(alloc, policy, net) {
        Ok(checked) => provision_checked(alloc, net, &checked, objective, budget),
        Err(fault) => Err(CompileFault::Check(fault)),
    }
}
