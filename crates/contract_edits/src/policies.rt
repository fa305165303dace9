//! Policies, as they are read.

ghost use Rattle.std.specs.Prelude.{IfOk, IfErr};
ghost use Rattle.policy_parser.specs.Policies.{IsPolicyText, IsRefused, IsParsed};

use policy_parser::{Policy, PolicyFault, parse};
use std::alloc::Global;

/// What `parse` answers.
pub fn policy(alloc: Global, bytes: &[u8]) -> Result<Policy, PolicyFault>
    ensures ok { IfOk result (IsPolicyText bytes.now) }
    ensures parsed { IfOk result IsParsed }
    ensures err { IfErr result (λ fault. IsRefused fault bytes.now) }
{
    match parse(alloc, bytes) {
        Ok(policy) => Ok(policy),
        Err(fault) => Err(fault),
    }
}
