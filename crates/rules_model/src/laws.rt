//! Laws about the tables. Each is the contract of a function that does nothing.

ghost use Rattle.std.specs.Prelude.{ℕ, ◌≡◌, List};
ghost use Rattle.merlin_model.specs.declared.config.Config.{Config};
ghost use Rattle.merlin_model.specs.declared.policy.Ends.{Ends};
ghost use Rattle.merlin_model.specs.declared.policy.Symbol.{Symbol};
ghost use Rattle.merlin_model.specs.Packets.{Packet, IsPacket};
ghost use Rattle.merlin_model.specs.Networks.{Network, IsNetwork, IsProper};
ghost use Rattle.merlin_model.specs.Policies.{Policy, match_of};
ghost use Rattle.merlin_model.specs.Machine.{start, EachRun};
ghost use Rattle.merlin_model.specs.Headline.{DeliversPackets, HasAllowed, HasRoom};
ghost use Rattle.rules_model.specs.Products.{Group, AreWrittenWalks};
ghost use Rattle.rules_model.specs.Tables.{Cell, IngressEntry, IsIngressEntry, owned_by, Plan};
ghost use Rattle.rules_model.specs.Tables.{IsPlan, IsInOrder};
ghost use Rattle.rules_model.specs.Promise.{HasGroup, IsThrough, IsCompiled};

/// A compiled configuration delivers packets as promised, through the queues of their groups.
pub fn compiled_delivers()
    ensures delivers { (net : Network) (policy : Policy) (ends : List Ends)
        (walks : List (List Symbol)) (groups : List Group) (group_of : List ℕ) (plan : Plan)
        (config : Config) → IsCompiled net policy ends walks groups group_of plan config →
        DeliversPackets net policy ends walks config }
    ensures queues { (net : Network) (policy : Policy) (ends : List Ends)
        (walks : List (List Symbol)) (groups : List Group) (group_of : List ℕ) (plan : Plan)
        (config : Config) → IsCompiled net policy ends walks groups group_of plan config →
        (s d : ℕ) (p : Packet) →
        (hg : HasGroup net policy ends walks groups group_of (match_of policy p)) → IsPacket p →
        IsProper net p s d → HasAllowed net policy s p →
        HasRoom net policy (match_of policy p) s → EachRun net config (start s p)
        (λ records end. IsThrough config s p hg.group.queue records) }
{}

/// The plan of some groups in order is determined, and with it the tables.
pub fn one_plan()
    ensures { (net : Network) (groups : List Group) (cells : ℕ → ℕ → List (Cell × ℕ))
        (plan other : Plan) → IsNetwork net → AreWrittenWalks net groups →
        IsPlan net groups plan → IsPlan net groups other → IsInOrder net groups cells plan →
        IsInOrder net groups cells other → plan ≡ other }
{}

/// An entry is determined by its pair of hosts, its cell and its group, over the same tags.
pub fn one_entry()
    ensures { (net : Network) (groups : List Group) (plan other : Plan) (x y : IngressEntry) →
        IsNetwork net → AreWrittenWalks net groups → IsPlan net groups plan →
        plan.tags ≡ other.tags → IsIngressEntry net groups plan x →
        IsIngressEntry net groups other y → owned_by x ≡ owned_by y → x ≡ y }
{}
