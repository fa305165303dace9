//! From the bytes of a policy and a topology to a result.
ghost use Rattle.std.specs.Prelude.{ℕ, ◌≡◌, ◌≤◌, ◌<◌, List, IfOk, IfErr};
ghost use Rattle.policy_parser.specs.Policies.{IsParsed, IsPolicyText};
ghost use Rattle.policy_expansion.specs.declared.policy.Policy.{Policy as RawPolicy};
ghost use Rattle.merlin_compile.specs.Input.{AreInputs};
ghost use Rattle.merlin_compile.specs.Causes.{IsCompileFault};
ghost use Rattle.merlin_compile.specs.Compiled.{IsCompiledFrom};
ghost use Rattle.merlin_compile.specs.Provisions.{IsProvisionFor};

use crate::fault::CompileFault;
use crate::outcome::{Compiled, Partial, Solved};
use crate::provisioning::{Provision, provide};
use merlin_model::limits::MAX_NODES;
use merlin_model::policy::Objective;
use policy_parser::{Policy as NamedPolicy, parse};
use std::alloc::Global;
use topology::{Topology, read};

// The result that a provision over a network is.
fn compiled_with(net: Topology, objective: Objective, provision: Provision) -> Compiled
    ensures { (policy topology : List ℕ) (raw : RawPolicy) (budget : ℕ) →
        AreInputs policy topology raw net → IsProvisionFor net raw objective budget provision →
        IsCompiledFrom policy topology objective budget result }
{
    result_heads::laws::loads_of_queues_are_those_of_walks();
    match provision {
        Provision::Least {
            ids,
            value,
            walks,
            config,
            tree,
        } => Compiled::Least(Solved {
            net,
            ids,
            objective,
            value,
            walks,
            config,
            tree,
        }),
        Provision::Infeasible { tree } => Compiled::Infeasible { objective, tree },
        Provision::Budget {
            ids,
            best,
            bound,
            tree,
        } => Compiled::Budget(Partial {
            net,
            ids,
            objective,
            best,
            bound,
            tree,
        }),
    }
}

// What a policy compiles to over a topology.
fn compile_over(
    alloc: Global,
    policy: &NamedPolicy,
    topology: &[u8],
    objective: Objective,
    budget: usize,
) -> Result<Compiled, CompileFault>
    requires some { 0 < budget }
    requires most { budget ≤ MAX_NODES }
    requires parsed { IsParsed policy.now }
    ensures ok { (text : List ℕ) → IsPolicyText text policy.now →
        IfOk result (IsCompiledFrom text topology.now objective budget) }
    ensures err { (text : List ℕ) → IsPolicyText text policy.now →
        IfErr result (λ fault. IsCompileFault fault text topology.now) }
{
    let net = read(alloc, topology)?;
    match provide(alloc, policy, &net, objective, budget) {
        Ok(provision) => Ok(compiled_with(net, objective, provision)),
        Err(fault) => Err(fault),
    }
}

/// What the policy compiles to over the topology, for an objective, by a search for walks of at most `budget` nodes.
///
/// # Errors
/// The first of: what `parse` says of the policy; what `read` says of the topology; what `check` says of the two; what `ends` says of the guaranteed
/// statements; the first limit that tags, cells or entries pass; and what `find_walks` says of the program of the guaranteed statements.
pub fn compile(
    alloc: Global,
    policy: &[u8],
    topology: &[u8],
    objective: Objective,
    budget: usize,
) -> Result<Compiled, CompileFault>
    requires some { 0 < budget }
    requires most { budget ≤ MAX_NODES }
    ensures ok { IfOk result (IsCompiledFrom policy.now topology.now objective budget) }
    ensures err { IfErr result (λ fault. IsCompileFault fault policy.now topology.now) }
{
    let policy = parse(alloc, policy)?;
    compile_over(alloc, &policy, topology, objective, budget)
}
