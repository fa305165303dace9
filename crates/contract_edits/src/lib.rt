//! Functions of one call over several libraries, with the clauses of what they call. Each file in must-fail/ turns such a call, and the prover
//! refuses it: so a library whose own proof takes long has its public contracts tried here, where a try takes seconds.
//!
//! Each answer in `proofs/` is the one fact that an edit takes away, so that the prover need not search for another.
#![tactic(auto)]

pub mod automata;
pub mod configs;
pub mod divisions;
pub mod files;
pub mod policies;
pub mod splits;
pub mod topologies;
