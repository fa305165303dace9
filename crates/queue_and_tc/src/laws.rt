//! Laws about the definitions. Each is the contract of a function that does nothing but cite others.

ghost use Rattle.std.specs.List.{AllByRecursion};
ghost use Rattle.merlin_model.specs.Networks.{Network, IsNetwork};
ghost use Rattle.merlin_model.specs.Policies.{Policy};
ghost use Rattle.merlin_model.specs.Predicates.{IsPred};
ghost use Rattle.configuration_model.specs.Checked.{preds_of};
ghost use Rattle.configuration_model.specs.Cells.{AreAllCells};
ghost use Rattle.configuration_model.specs.Pairs.{pair_cells};

/// The cells of two hosts are what tables and host lines ask for: the first that fits a packet names the statement that it belongs to, they stand by
/// falling priority, and of one priority at most one fits a packet.
pub fn pair_cells_name_owners()
    ensures { (net : Network) (policy : Policy) → IsNetwork net →
        AllByRecursion IsPred (preds_of policy) →
        AreAllCells net (preds_of policy) (pair_cells net policy) }
{
    predicate_split::laws::first_cell_names_the_owner();
    configuration_model::laws::cells_by_priority();
}
