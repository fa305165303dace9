//! How large a policy is.

use crate::lines::Lines;
use policy_parser::{Policy, Statement};

// The first and the last id.
fn add_ids(out: &mut Lines, statements: &[Statement]) {
    if let [first, ..] = statements {
        out.add(" ");
        out.add_bytes(first.id.bytes());
    }
    if let [.., last] = statements {
        out.add(" to ");
        out.add_bytes(last.id.bytes());
    }
}

/// Status 0, and in one line the number of statements with the first and the last id, whether there is a default, and the number of terms.
pub fn describe(out: &mut Lines, policy: &Policy) {
    let statements = policy.statements.as_slice();
    out.add("0\n");
    out.add_number(statements.len() as u64);
    out.add(" statements");
    add_ids(out, statements);
    if policy.default_path.is_some() {
        out.add(" and default");
    }
    out.add(",");
    out.add_numbers(&[policy.formula.terms.len() as u64]);
    out.add(" terms\n");
}
