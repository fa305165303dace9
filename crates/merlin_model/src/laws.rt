//! Laws about the definitions. Each is the contract of a function that does nothing, so that a proof may cite it.

ghost use Rattle.std.specs.Prelude.{◌≡◌, ℕ, ◌+◌, ◌↔◌, List, Bool, Option, Some, IsTrue, sum_by};
ghost use Rattle.std.specs.Prelude.{map, slice_get, true, ◌⊎◌, Contains};
ghost use Rattle.std.specs.List.{range_with_len};
ghost use Rattle.merlin_model.specs.Packets.{Packet, IsPacket, ComesBefore, IsLeastPacket};
ghost use Rattle.merlin_model.specs.Packets.{source_of, destination_of};
ghost use Rattle.merlin_model.specs.declared.network.HostAddress.{HostAddress};
ghost use Rattle.merlin_model.specs.Functions.{answers_of, KeepsDestination, RunsBy};
ghost use Rattle.merlin_model.specs.declared.network.FnDecl.{FnDecl};
ghost use Rattle.merlin_model.specs.Networks.{Network, IsNetwork, IsHost, IsProper, DirectedLink};
ghost use Rattle.merlin_model.specs.Networks.{directed_links, back_of, address_of};
ghost use Rattle.merlin_model.specs.Tests.{is_proper};
ghost use Rattle.merlin_model.specs.Policies.{Policy, Statement, AreDisjoint, match_of};
ghost use Rattle.merlin_model.specs.declared.policy.Ends.{Ends};
ghost use Rattle.merlin_model.specs.Assignments.{AreAllEnds, IsAssignment};
ghost use Rattle.merlin_model.specs.Headline.{HasWalkOnPath};
ghost use Rattle.merlin_model.specs.Predicates.{holds};
ghost use Rattle.merlin_model.specs.Rates.{share, IsShareAt, IsGuaranteed};
ghost use Rattle.merlin_model.specs.Programs.{Program, IsSolution};
ghost use Rattle.merlin_model.specs.Trees.{Refutes, IsInBox, nodes_of, node_count};
ghost use Rattle.merlin_model.specs.declared.certificate.Tree.{Tree};
ghost use Rattle.std.specs.Prelude.{length, [], ◌∷◌, ◌<◌, ◌≢◌, None, flat_map};
ghost use Rattle.std.specs.List.{AllByRecursion};
ghost use Rattle.merlin_model.specs.declared.policy.Symbol.{Symbol};
ghost use Rattle.merlin_model.specs.Words.{IsWalk, WalksFrom, neighbours, visits, functions_of};
ghost use Rattle.merlin_model.specs.declared.config.Rule.{Rule};
ghost use Rattle.merlin_model.specs.declared.config.Config.{Config};
ghost use Rattle.merlin_model.specs.Machine.{Runs, link_at, uplink_of, is_for, Fits, acting_rule};
ghost use Rattle.merlin_model.specs.Machine.{ActsAt, Frame, Visit, End, EachRun};
ghost use Rattle.merlin_model.specs.Tests.{plain_trace, HasNoMiddlebox};

/// Whether a packet is proper can be told by comparing numbers.
pub fn proper_is_decidable()
    ensures { (net : Network) (p : Packet) (s d : ℕ) → IsTrue (is_proper net p s d) ↔
        IsProper net p s d }
{}

/// Where predicates are disjoint, a packet belongs to every statement whose predicate holds of it: there is one.
pub fn one_statement_matches()
    ensures { (policy : Policy) (p : Packet) (i : ℕ) (s : Statement) → AreDisjoint policy →
        IsPacket p → slice_get policy.statements i ≡ Some s → holds s.pred p ≡ true →
        match_of policy p ≡ i }
{}

/// A box that a tree refutes holds no solution.
pub fn refuted_box_has_no_solution()
    ensures { (program : Program) (tree : Tree) (box : List (Option Bool)) →
        Refutes program tree box → (point : List Bool) → IsSolution program point →
        IsInBox box point → ⊥ }
{}

/// Without a middlebox each run from a frame is the one that `plain_trace` computes.
pub fn plain_trace_is_each_run()
    ensures { (net : Network) (config : Config) (n : ℕ) (f : Frame) (run : List Visit × End) →
        HasNoMiddlebox net → plain_trace net config n f ≡ Some run →
        EachRun net config f (λ records end. (records ≡ run.0) × (end ≡ run.1)) }
{}

/// The shares of an amount sum to the amount.
pub fn shares_sum()
    ensures { (amount parts : ℕ) → 0 < parts →
        sum_by (share amount parts) (range_with_len 0 parts) ≡ amount }
{}

/// A walk, symbol by symbol: a word from a host goes on over equal or linked locations and ends with the other host.
pub fn walk_goes_on()
    ensures { (net : Network) (s d : ℕ) (w : List Symbol) → IsWalk net s d w → WalksFrom net s d w }
{}

/// The other way round: such a word is a walk.
pub fn goes_on_walk()
    ensures { (net : Network) (s d : ℕ) (w : List Symbol) → WalksFrom net s d w → IsWalk net s d w }
{}

/// Neighbouring stops of a word are at different locations, and the functions of the stops are those of the word, in order.
pub fn stops_of_a_word()
    ensures apart { (w : List Symbol) →
        AllByRecursion (λ pair. pair.0.loc ≢ pair.1.loc) (neighbours (visits w)) }
    ensures functions { (w : List Symbol) →
        flat_map (λ stop. stop.functions) (visits w) ≡ flat_map functions_of w }
{}

/// The rule that acts is the first among those of the highest priority that fit, and there is one where any fits.
pub fn first_highest_rule_acts()
    ensures acts { (rules : List Rule) (f : Frame) (r : Rule) → acting_rule rules f ≡ Some r →
        (k : ℕ) × ActsAt rules f k r }
    ensures only { (rules : List Rule) (f : Frame) (k : ℕ) (r : Rule) → ActsAt rules f k r →
        acting_rule rules f ≡ Some r }
{}

/// A statement has one share at a host.
pub fn one_share()
    ensures { (net : Network) (policy : Policy) (i s c d : ℕ) → IsShareAt net policy i s c →
        IsShareAt net policy i s d → c ≡ d }
{}

/// A rule stands at the frame's switch and fits it exactly where it does so part by part.
pub fn fitting_parts()
    ensures { (f : Frame) (r : Rule) → IsTrue (is_for f r) ↔ Fits r f }
{}

/// A rule acts where it fits and each other rule that fits has a lower priority.
pub fn highest_rule_acts()
    ensures { (rules : List Rule) (f : Frame) (r : Rule) → Contains rules r → is_for f r ≡ true →
        ((q : Rule) → Contains rules q → is_for f q ≡ true → (q ≡ r) ⊎ (q.priority < r.priority)) →
        acting_rule rules f ≡ Some r }
{}

/// In a network the way back of a directed link is a directed link, a port and a far end name one directed link, and a host has one.
pub fn directed_links_of_a_network()
    ensures back { (net : Network) (w : DirectedLink) → Contains (directed_links net) w →
        Contains (directed_links net) (back_of w) }
    ensures port { (net : Network) (v w : DirectedLink) → IsNetwork net →
        Contains (directed_links net) v → Contains (directed_links net) w → v.from ≡ w.from →
        v.out_port ≡ w.out_port → v ≡ w }
    ensures ends { (net : Network) (v w : DirectedLink) → IsNetwork net →
        Contains (directed_links net) v → Contains (directed_links net) w → v.from ≡ w.from →
        v.to ≡ w.to → v ≡ w }
    ensures by_port { (net : Network) (w : DirectedLink) → IsNetwork net →
        Contains (directed_links net) w → link_at net w.from w.out_port ≡ Some w }
    ensures of_host { (net : Network) (w : DirectedLink) → IsNetwork net → IsHost net w.from →
        Contains (directed_links net) w → uplink_of net w.from ≡ Some w }
{}

/// Packets stand in one order: of two different ones one comes before the other.
pub fn order_of_packets()
    ensures irreflexive { (p : Packet) → ¬ ComesBefore p p }
    ensures transitive { (p q r : Packet) → ComesBefore p q → ComesBefore q r → ComesBefore p r }
    ensures total { (p q : Packet) → (p ≡ q) ⊎ (ComesBefore p q ⊎ ComesBefore q p) }
{}

/// A property has at most one least packet.
pub fn one_least_packet()
    ensures { (has : Packet → Bool) (p q : Packet) →
        IsLeastPacket (λ r. IsTrue (has r)) p → IsLeastPacket (λ r. IsTrue (has r)) q → p ≡ q }
{}

/// A run by packet functions that keep eth.dst, whatever else they do, is a run of the machine. Here each function answers one packet;
/// `runs-by` of `proofs/FunctionRuns` says the same of functions of which it is only known what they may answer.
pub fn run_by_functions_is_a_run()
    ensures { (net : Network) (config : Config) (answer : FnDecl → Packet → Packet)
        (f : Frame) (visits : List Visit) (end : End) →
        KeepsDestination (answers_of answer) → IsPacket f.packet →
        RunsBy net config (answers_of answer) f visits end → Runs net config f visits end }
{}

/// A packet is proper between two hosts exactly where they differ and it bears their addresses.
pub fn proper_is_between()
    ensures { (net : Network) (p : Packet) (s d : ℕ) (source destination : HostAddress) →
        address_of net s ≡ Some source → address_of net d ≡ Some destination →
        ((s ≢ d) × (source_of p ≡ source) × (destination_of p ≡ destination)) ↔ IsProper net p s d }
{}

/// Each guaranteed statement has a walk in an assignment, and the walk is on its path. So where there are no ends, nothing is guaranteed.
pub fn guarantees_have_walks()
    ensures { (net : Network) (policy : Policy) (ends : List Ends)
        (walks : List (List Symbol)) (i : ℕ) → AreAllEnds net policy ends →
        IsAssignment net policy ends walks → IsGuaranteed policy i →
        HasWalkOnPath policy ends walks i }
{}

/// The box of a tree says nothing of how many nodes the tree has.
pub fn one_node_count()
    ensures { (tree : Tree) (box : List (Option Bool)) →
        length (nodes_of tree box) ≡ node_count tree }
{}
