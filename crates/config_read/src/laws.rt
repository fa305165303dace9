//! Laws about texts of results. Each is the contract of a function that does nothing.

ghost use Rattle.std.specs.Prelude.{ℕ, ◌≡◌, List};
ghost use Rattle.merlin_model.specs.declared.policy.Objective.{Objective};
ghost use Rattle.merlin_model.specs.declared.policy.Symbol.{Symbol};
ghost use Rattle.merlin_model.specs.declared.policy.Value.{Value};
ghost use Rattle.merlin_model.specs.declared.certificate.Tree.{Tree};
ghost use Rattle.merlin_model.specs.Networks.{Network, IsNetwork};
ghost use Rattle.merlin_base.specs.Texts.{joined};
ghost use Rattle.merlin_base.specs.NodeTexts.{node_lines};
ghost use Rattle.config_text.specs.declared.loads.Load.{Load};
ghost use Rattle.config_text.specs.Result.{value_text, tree_lines, result_lines};
ghost use Rattle.config_read.specs.declared.fault.ConfigFault.TheVariants.{BadConfig};
ghost use Rattle.config_read.specs.declared.result.ResultText.{ResultText};
ghost use Rattle.config_read.specs.Results.{IsResult};
ghost use Rattle.config_read.specs.Answers.{IsTextOfResult, IsConfigFault, TellsParts};

/// The lines that are printed of a result are the text that stands for it, where its parts are such that a line stands for them.
pub fn printed_result_is_read()
    ensures nodes { (tree : Tree) → joined (tree_lines tree) ≡ node_lines tree }
    ensures whole { (net : Network) (r : ResultText) (tree : Tree) (objective : Objective)
        (value : Value) (walks : List (List ℕ × List Symbol)) (loads : List Load) →
        IsResult net (r, tree) → TellsParts r objective (value_text value) walks loads →
        IsTextOfResult net (joined (result_lines net objective value walks loads r.config tree)) r }
{}

/// Over a network a text stands for one result at most, and a text that stands for one has no wrong line.
pub fn one_result()
    ensures one { (net : Network) (bytes : List ℕ) (r other : ResultText) → IsNetwork net →
        IsTextOfResult net bytes r → IsTextOfResult net bytes other → other ≡ r }
    ensures whole { (net : Network) (bytes : List ℕ) (r : ResultText) (at : ℕ) →
        IsTextOfResult net bytes r → ¬ IsConfigFault net bytes (BadConfig at) }
{}
