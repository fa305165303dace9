//! What the contracts say together. Each law is the contract of a function that does nothing.

ghost use Rattle.std.specs.Prelude.{ℕ, ◌≡◌, ◌≤◌, ◌++◌, ◌↔◌, Contains, List, [], ◌∷◌, Option, Some, slice_get, true};
ghost use Rattle.std.specs.List.{AllByRecursion};
ghost use Rattle.merlin_model.specs.Packets.{Packet};
ghost use Rattle.merlin_model.specs.declared.policy.Symbol.{Symbol};
ghost use Rattle.merlin_model.specs.declared.policy.Ends.{Ends};
ghost use Rattle.merlin_model.specs.declared.config.Config.{Config};
ghost use Rattle.merlin_model.specs.Networks.{Network, IsHost, Pairwise};
ghost use Rattle.merlin_model.specs.Policies.{Policy};
ghost use Rattle.merlin_model.specs.Headline.{DeliversPackets, KeepsCaps, MeetsGuarantees, HasOneLinePerClass};
ghost use Rattle.merlin_model.specs.Assignments.{IsFeasible};
ghost use Rattle.rules_model.specs.Promise.{IsCompiled};
ghost use Rattle.rules_model.specs.Products.{SymbolAutomaton, Vertex, WrittenWalk, IsVertexIn, TreeFollows};
ghost use Rattle.product_graph.specs.declared.span.Product.{Product};
ghost use Rattle.product_graph.specs.declared.span.Span2.TheVariants.{Pair, All};
ghost use Rattle.product_graph.specs.Products.{IsEmptyOverSpan, IsTrimmed};
ghost use Rattle.sink_tree.specs.Trees.{NextLeads, IsSinkTree};
ghost use Rattle.predicate_split.specs.declared.pair_cells.Cell.{Cell as HostCell};
ghost use Rattle.predicate_split.specs.Cells.{cell_matches};
ghost use Rattle.configuration_model.specs.Cells.{priority_of, IsRegular};
ghost use Rattle.configuration_model.specs.Hosts.{host_lines};
ghost use Rattle.configuration_model.specs.Rows.{two_hosts_apart, both_ways, shut_policy, shut_cells, shut_lines, shared_policy, shared_lines};
ghost use Rattle.configuration_model.specs.Compiled.{IsMade};

/// What keeps the contracts is compiled.
pub fn made_is_compiled()
    ensures compiled { (net : Network) (policy : Policy) (ends : List Ends)
        (walks : List (List Symbol)) (config : Config) →
        (m : IsMade net policy ends walks config) →
        IsCompiled net policy ends walks m.tables.groups m.tables.group_of m.tables.plan config }
    ensures delivers { (net : Network) (policy : Policy) (ends : List Ends)
        (walks : List (List Symbol)) (config : Config) → IsMade net policy ends walks config →
        DeliversPackets net policy ends walks config }
{}

/// What keeps the contracts keeps the caps, and each class of a host has one line.
pub fn made_keeps_caps()
    ensures caps { (net : Network) (policy : Policy) (ends : List Ends)
        (walks : List (List Symbol)) (config : Config) → IsMade net policy ends walks config →
        KeepsCaps net policy ends walks config }
    ensures lines { (net : Network) (policy : Policy) (ends : List Ends)
        (walks : List (List Symbol)) (config : Config) → IsMade net policy ends walks config →
        HasOneLinePerClass config }
{}

/// What keeps the contracts, with walks that fit the links together, meets the guarantees.
pub fn made_meets_guarantees()
    ensures { (net : Network) (policy : Policy) (ends : List Ends) (walks : List (List Symbol))
        (config : Config) → IsMade net policy ends walks config →
        IsFeasible net policy ends walks → MeetsGuarantees net policy ends walks config }
{}

/// The next vertices of a sink tree over a product are what the tables of a group of best effort follow, and all of it. Where the
/// product is empty nothing follows.
pub fn sink_tree_is_followed()
    ensures at { (net : Network) (a : SymbolAutomaton) (d : ℕ) (product : Product) (next : ℕ →
        Option ℕ) → IsHost net d → (is : IsTrimmed net a (All d) product) →
        IsSinkTree net a d product next → (k : ℕ) (v : Vertex) →
        slice_get (is.first ++ is.inner) k ≡ Some v →
        (us : List Vertex) × NextLeads product next k us × TreeFollows net a d v us }
    ensures all { (net : Network) (a : SymbolAutomaton) (d : ℕ) (product : Product) (next : ℕ →
        Option ℕ) → IsHost net d → (is : IsTrimmed net a (All d) product) →
        IsSinkTree net a d product next → (v : Vertex) (us : List Vertex) →
        TreeFollows net a d v us →
        (k : ℕ) × (slice_get (is.first ++ is.inner) k ≡ Some v) × NextLeads product next k us }
    ensures empty { (net : Network) (a : SymbolAutomaton) (d : ℕ) (product : Product) →
        IsHost net d → IsEmptyOverSpan net a (All d) product → (v : Vertex) (us : List Vertex) →
        ¬ TreeFollows net a d v us }
{}

/// Of cells whose owners go by the parts that are named, at most one of a priority cell_matches a packet; and cells that stand in lists of
/// one priority each, the highest first, fall.
pub fn cells_by_priority()
    ensures one { (own : Option ℕ → Option ℕ → Option ℕ → Option ℕ) (p : Packet)
        (b c : HostCell) → IsRegular own b → IsRegular own c → cell_matches p b ≡ true →
        cell_matches p c ≡ true → priority_of b ≡ priority_of c → b ≡ c }
    ensures falls { (m : ℕ) (xs ys : List HostCell) → AllByRecursion (λ c. priority_of c ≡ m) xs →
        AllByRecursion (λ c. priority_of c ≤ m) ys →
        Pairwise (λ b c. priority_of c ≤ priority_of b) ys →
        Pairwise (λ b c. priority_of c ≤ priority_of b) (xs ++ ys) }
{}

/// Lines of hosts by hand: a statement that may use nothing, and one whose cap is shared by two hosts.
pub fn worked_host_lines()
    ensures shut { host_lines two_hosts_apart shut_policy ((0 ∷ 1 ∷ []) ∷ (0 ∷ 1 ∷ []) ∷
        []) (both_ways shut_cells) ≡ shut_lines }
    ensures shared { host_lines two_hosts_apart shared_policy ((0 ∷ 1 ∷ []) ∷ (0 ∷ 1 ∷ []) ∷
        []) (both_ways shut_cells) ≡ shared_lines }
{}

/// The vertices of a guaranteed statement's product, before its end, are those that tags stand for.
pub fn product_vertices_are_tagged()
    ensures { (net : Network) (a : SymbolAutomaton) (w : WrittenWalk) (product : Product) →
        IsHost net w.source → (is : IsTrimmed net a (Pair w.source w.dest) product) →
        (v : Vertex) → Contains (is.first ++ is.inner) v ↔ IsVertexIn net a (Some w) w.dest v }
{}
