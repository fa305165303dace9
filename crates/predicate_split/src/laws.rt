//! Laws about the definitions. Each is the contract of a function that does nothing.

ghost use Rattle.std.specs.Prelude.{◌≡◌, ◌⊎◌, ℕ, true, List, Contains, length, find, option_map, Some};
ghost use Rattle.std.specs.List.{AllByRecursion, flat_map};
ghost use Rattle.merlin_model.specs.declared.policy.Field.{Field};
ghost use Rattle.merlin_model.specs.declared.policy.Pred.{Pred};
ghost use Rattle.merlin_model.specs.declared.network.HostAddress.{HostAddress};
ghost use Rattle.predicate_split.specs.declared.pair_cells.Cell.{Cell};
ghost use Rattle.merlin_model.specs.Packets.{Packet, IsPacket, ComesBefore, IsLeastPacket};
ghost use Rattle.merlin_model.specs.Predicates.{holds, IsPred};
ghost use Rattle.predicate_logic.specs.Mentions.{mentions, prefixes, ascending};
ghost use Rattle.predicate_split.specs.Parts.{bits_of, has_field, AreParts, field_parts};
ghost use Rattle.predicate_split.specs.Classes.{classes_of};
ghost use Rattle.packet_model.specs.Fields.{IsBetween};
ghost use Rattle.predicate_split.specs.Cells.{cell_matches, owner_from, cells_between, own_packet, FitsFirst};
ghost use Rattle.predicate_split.specs.Refusals.{classes_in};

/// A field is split into all values that stand for their parts: those that are mentioned, and of all others the least in the same blocks.
pub fn parts_are_least_values()
    ensures { (f : Field) (proto : ℕ) (preds : List Pred) → AllByRecursion IsPred preds →
        has_field f proto ≡ true → AreParts (bits_of f) (flat_map (prefixes f) preds)
        (ascending (flat_map (mentions f) preds)) (field_parts f proto preds) }
{}

/// Each packet is judged as the representative of a class, which does not come after it.
pub fn classes_judge_alike()
    ensures { (preds : List Pred) (p : Packet) → AllByRecursion IsPred preds → IsPacket p →
        (c : Packet) × Contains (classes_of preds) c × ((p ≡ c) ⊎ ComesBefore c p) ×
        AllByRecursion (λ pred. holds pred c ≡ holds pred p) preds }
{}

/// The number of classes is that of their representatives.
pub fn classes_are_counted()
    ensures { (preds : List Pred) → length (classes_of preds) ≡ classes_in preds }
{}

/// Of the cells of a pair of hosts the first that fits a packet between the hosts names the first predicate that holds of it.
pub fn first_cell_names_the_owner()
    ensures { (preds : List Pred) (src dst : HostAddress) (p : Packet) →
        AllByRecursion IsPred preds → IsPacket p → IsBetween p src dst →
        option_map (λ c. c.owner) (find (cell_matches p) (cells_between preds src dst)) ≡
        Some (owner_from 0 preds p) }
{}

/// Packets between two hosts that have the same first cell are judged alike by every predicate.
pub fn cells_judge_alike()
    ensures { (preds : List Pred) (src dst : HostAddress) (p q : Packet) →
        AllByRecursion IsPred preds → IsPacket p → IsPacket q → IsBetween p src dst →
        IsBetween q src dst → find (cell_matches p) (cells_between preds src dst) ≡
        find (cell_matches q) (cells_between preds src dst) →
        AllByRecursion (λ pred. holds pred p ≡ holds pred q) preds }
{}

/// A cell that is the first to fit some packet between two hosts has an own packet: the least that it is the first to fit.
pub fn own_packets_are_least()
    ensures { (preds : List Pred) (src dst : HostAddress) (c : Cell) (p : Packet) →
        AllByRecursion IsPred preds → IsPacket p → FitsFirst preds src dst c p →
        IsLeastPacket (FitsFirst preds src dst c) (own_packet preds src dst c) }
{}
