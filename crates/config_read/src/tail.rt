//! The end of a result: its tree.

ghost use Rattle.std.specs.Prelude.{IfOk, IfErr};
ghost use Rattle.merlin_base.specs.Faults.{GoesWrong};
ghost use Rattle.config_read.specs.Tails.{closing_tree, IsTree, BeginsWithTree, IsLastTree, IsNoLastTree};

use merlin_base::{skip_nodes, strip_front};

// What stands behind the line `tree`, the nodes of a tree and the line `end` with which the text begins. An error says how much is left from the
// first wrong line on.
fn skip_tree(text: &[u8]) -> Result<&[u8], usize>
    ensures ok { IfOk result (λ rest. BeginsWithTree text.now rest.now) }
    ensures err { IfErr result (GoesWrong closing_tree IsTree text.now) }
{
    let Some(nodes) = strip_front(text, b"tree\n") else {
        return Err(text.len());
    };
    match skip_nodes(nodes, 0, false) {
        Ok(end) => Ok(&nodes[end..]),
        Err(at) => Err(nodes.len() - at),
    }
}

/// Whether the text is the line `tree`, the nodes of a tree and the line `end`. An error says how much is left from the first wrong line on.
pub(crate) fn end_with_tree(text: &[u8]) -> Result<(), usize>
    ensures ok { IfOk result (λ done. IsLastTree text.now) }
    ensures err { IfErr result (IsNoLastTree text.now) }
{
    match skip_tree(text) {
        Ok(more) => {
            if more.is_empty() {
                Ok(())
            } else {
                Err(more.len())
            }
        }
        Err(left) => Err(left),
    }
}
