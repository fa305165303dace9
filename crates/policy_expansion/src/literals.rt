//! The addresses of a set.
ghost use Rattle.std.specs.Prelude.{◌≡◌, false, not, ◌||◌, IfOk};
ghost use Rattle.policy_grammar.specs.declared.written.Literal.{Literal};
ghost use Rattle.policy_expansion.specs.WrittenOut.{unlike, first_places};
ghost use Rattle.policy_expansion.specs.Seen.{has_seen};

use merlin_model::OutOfMemory;
use policy_grammar::written::Literal;
use sqlite_items::Items;
use std::alloc::Global;
use std::collections::BTreeSet;

// Addresses that were met, by kind.
#[derive(Drop)]
struct Seen {
    macs: BTreeSet<u64>,
    ips: BTreeSet<u32>,
}

impl Seen {
    fn new(alloc: Global) -> Seen
        ensures { (other : Literal) → has_seen result other ≡ false }
    {
        Seen {
            macs: BTreeSet::new(alloc),
            ips: BTreeSet::new(alloc),
        }
    }

    // Whether the literal was not met before.
    fn insert(&mut self, literal: Literal) -> Result<bool, OutOfMemory>
        ensures is_new { IfOk result (λ is_new. is_new ≡ not (has_seen self.old literal)) }
        ensures now { IfOk result (λ _. (other : Literal) → has_seen self.new other
            ≡ (has_seen self.old other || not (unlike literal other))) }
    {
        Ok(match literal {
            Literal::Mac(mac) => self.macs.insert(mac)?,
            Literal::Ip(ip) => self.ips.insert(ip)?,
        })
    }
}

// Each literal at its first place.
pub(crate) fn without_repeats(
    alloc: Global,
    literals: &[Literal],
) -> Result<Items<Literal>, OutOfMemory>
    ensures { IfOk result (λ kept. kept ≡ first_places literals.now) }
{
    let mut seen = Seen::new(alloc);
    let mut kept = Items::new(alloc);
    for literal in literals {
        if seen.insert(*literal)? {
            kept.push(*literal)?;
        }
    }
    Ok(kept)
}
