//! Whole results: the first line says which form the text has, and then each kind of line is read in its order, by recursive descent.

ghost use Rattle.std.specs.Prelude.{◌≡◌, ◌++◌, true, false, IfOk, IfErr};
ghost use Rattle.merlin_model.specs.Networks.{Network};
ghost use Rattle.config_text.specs.Lines.{IsConfigOver};
ghost use Rattle.config_read.specs.declared.result.ResultText.{ResultText as Stated};
ghost use Rattle.config_read.specs.Heads.{first_line, IsVersion};
ghost use Rattle.config_read.specs.Answers.{IsTextOfResult, IsConfigFault};

use crate::body::{Body, empty_config, read_body};
use crate::fault::ConfigFault;
use crate::heads::{objective_then, read_first_line, read_least_line};
use crate::result::{Head, ResultText};
use crate::tail::end_with_tree;
use merlin_base::name_from;
use std::alloc::Global;
use topology::Topology;

// The length of the line before the nodes.
const TREE_LINE: usize = 5;

// The result with an assignment that the text behind the first line stands for.
fn read_least(
    alloc: Global,
    net: &Topology,
    bytes: &[u8],
    version: u8,
    text: &[u8],
) -> Result<ResultText, ConfigFault>
    requires version { IsVersion version }
    requires text { bytes.now ≡ first_line version true ++ text.now }
    ensures ok { IfOk result (IsTextOfResult net.now bytes.now) }
    ensures err { IfErr result (IsConfigFault net.now bytes.now) }
{
    let Some((objective, word, rest)) = read_least_line(text) else {
        return Err(ConfigFault::BadConfig {
            at: bytes.len() - text.len(),
        });
    };
    let value = name_from(alloc, word)?;
    let mut body = Body::new(alloc);
    match read_body(alloc, net, version, rest, &mut body) {
        Err(_) => Err(ConfigFault::OutOfMemory),
        Ok(tree) => match end_with_tree(tree) {
            Err(left) => Err(ConfigFault::BadConfig {
                at: bytes.len() - left,
            }),
            Ok(()) => {
                let Body {
                    walks,
                    loads,
                    config,
                } = body;
                Ok(ResultText {
                    version,
                    head: Head::Least {
                        objective,
                        value,
                        walks,
                        loads,
                    },
                    config,
                    tree_start: bytes.len() - (tree.len() - TREE_LINE),
                })
            }
        },
    }
}

// The result without an assignment that the text behind the first line stands for, over any network.
fn read_infeasible(
    alloc: Global,
    bytes: &[u8],
    version: u8,
    text: &[u8],
) -> Result<ResultText, ConfigFault>
    requires version { IsVersion version }
    requires text { bytes.now ≡ first_line version false ++ text.now }
    ensures ok { IfOk result (λ r. (net : Network) → IsTextOfResult net bytes.now r) }
    ensures err { IfErr result (λ fault. (net : Network) → IsConfigFault net bytes.now fault) }
{
    let Some((objective, tree)) = objective_then(text, b'\n') else {
        return Err(ConfigFault::BadConfig {
            at: bytes.len() - text.len(),
        });
    };
    match end_with_tree(tree) {
        Err(left) => Err(ConfigFault::BadConfig {
            at: bytes.len() - left,
        }),
        Ok(()) => Ok(ResultText {
            version,
            head: Head::Infeasible { objective },
            config: empty_config(alloc),
            tree_start: bytes.len() - (tree.len() - TREE_LINE),
        }),
    }
}

/// The result over this network that a text stands for, in version 1 or 2. Where it stands for none, the fault is at the start of the first line with which it
/// begins none, node lines included. A text of a search that ran out of budget is no result. `only`: no other result has the text.
pub fn read(alloc: Global, bytes: &[u8], net: &Topology) -> Result<ResultText, ConfigFault>
    ensures ok { IfOk result (IsTextOfResult net.now bytes.now) }
    ensures only { IfOk result (λ r. (other : Stated) →
        IsTextOfResult net.now bytes.now other → other ≡ r) }
    ensures over { IfOk result (λ r. IsConfigOver net.now r.config) }
    ensures err { IfErr result (IsConfigFault net.now bytes.now) }
{
    // No two names of the network are alike.
    let _locations = net.locations();
    let Some(((version, feasible), text)) = read_first_line(bytes) else {
        return Err(ConfigFault::BadConfig { at: 0 });
    };
    if feasible {
        read_least(alloc, net, bytes, version, text)
    } else {
        read_infeasible(alloc, bytes, version, text)
    }
}
