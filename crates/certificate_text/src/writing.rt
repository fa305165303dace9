//! A tree handed to a sink, line by line: its nodes in preorder, over a stack of the trees that are left. No line is kept once it was
//! handed over.

ghost use Rattle.std.specs.Prelude.{◌≡◌, ◌≤◌, ◌++◌, ◌∷◌, [], ℕ, List, map, IsOk, OnOk, OnErr, IfOk};
ghost use Rattle.merlin_model.specs.Trees.{Leaf_node, Split_node};
ghost use Rattle.merlin_base.specs.Outside.{Rose, FailsOnlyIf, Grows, GrowsByPrefix};
ghost use Rattle.merlin_base.specs.Pairs.{pair_text, pairs_text};
ghost use Rattle.merlin_base.specs.NodeTexts.{pair_of, node_line, node_lines};
ghost use Rattle.certificate_text.specs.TreeTexts.{tree_text};
ghost use Rattle.certificate_text.specs.Preorder.{first_node, subtrees, lines_from_last};

use certificate::{Tree, Weight};
use itoa::Buffer;
use merlin_base::{OutsideFault, Sink, SureSink, write_all};
use merlin_model::{Name, OutOfMemory, name_from};
use std::alloc::Global;

// Adds a weight to the end of a line.
fn add_weight(line: &mut Vec<u8>, weight: Weight) -> Result<(), OutOfMemory>
    ensures { OnOk result (line.new.items ≡ line.old.items ++ pair_text (pair_of weight)) }
{
    let mut digits = Buffer::new();
    line.push(b' ')?;
    line.extend_from_slice(digits.format(weight.row).as_bytes())?;
    line.push(b':')?;
    line.extend_from_slice(digits.format(weight.weight).as_bytes())?;
    Ok(())
}

// Adds weights to the end of a line.
fn add_weights(line: &mut Vec<u8>, weights: &[Weight]) -> Result<(), OutOfMemory>
    ensures { OnOk result (line.new.items ≡ line.old.items
        ++ pairs_text (map pair_of weights.now)) }
{
    for weight in weights {
        add_weight(line, *weight)?;
    }
    Ok(())
}

// The line of a leaf. The line begins anew, so below.
fn leaf_line(line: &mut Vec<u8>, weights: &[Weight]) -> Result<(), OutOfMemory>
    ensures { OnOk result (line.new.items ≡ node_line (Leaf_node weights.now)) }
{
    line.clear();
    line.extend_from_slice(b"leaf")?;
    add_weights(line, weights)?;
    line.push(b'\n')?;
    Ok(())
}

// The line of a split.
fn split_line(line: &mut Vec<u8>, variable: usize) -> Result<(), OutOfMemory>
    ensures { OnOk result (line.new.items ≡ node_line (Split_node variable)) }
{
    let mut digits = Buffer::new();
    line.clear();
    line.extend_from_slice(b"split ")?;
    line.extend_from_slice(digits.format(variable).as_bytes())?;
    line.push(b'\n')?;
    Ok(())
}

// The line of one word.
fn word_line(line: &mut Vec<u8>, word: &[u8]) -> Result<(), OutOfMemory>
    ensures { OnOk result (line.new.items ≡ word.now ++ 10 ∷ []) }
{
    line.clear();
    line.extend_from_slice(word)?;
    line.push(b'\n')?;
    Ok(())
}

// Makes the line of the first node of a tree, and puts the trees behind it on the stack.
fn take_node<'a>(
    line: &mut Vec<u8>,
    pending: &mut Vec<&'a Tree>,
    tree: &'a Tree,
) -> Result<(), OutOfMemory>
    ensures line { OnOk result (line.new.items ≡ node_line (first_node tree.now)) }
    ensures pending { OnOk result (map (λ t. t.now) pending.new.items ≡
        map (λ t. t.now) pending.old.items ++ subtrees tree.now) }
{
    match tree {
        Tree::Leaf(weights) => leaf_line(line, weights.as_slice()),
        Tree::Split {
            variable,
            zero,
            one,
        } => {
            pending.push(one.get())?;
            pending.push(zero.get())?;
            split_line(line, *variable)
        }
        Tree::Unclosed => word_line(line, b"open"),
    }
}

// Hands over a line, if there was memory for it.
fn hand_over<K: Sink>(
    out: &mut K,
    line: &[u8],
    made: Result<(), OutOfMemory>,
) -> Result<(), OutsideFault>
    ensures ok { (text : List ℕ) → OnOk made (line.now ≡ text) →
        OnOk result (Grows (K.taken out.old) (K.taken out.new) text) }
    ensures err { (text : List ℕ) → OnOk made (line.now ≡ text) →
        OnErr result (GrowsByPrefix (K.taken out.old) (K.taken out.new) text) }
    ensures made { OnOk result (IsOk made) }
    ensures later { K.faults out.old ≤ K.faults out.new }
    ensures failed { FailsOnlyIf result (Rose (K.faults out.old) (K.faults out.new)) }
{
    match made {
        Ok(()) => write_all(out, line),
        Err(OutOfMemory) => Err(OutsideFault::OutOfMemory),
    }
}

// Hands over the lines of trees in preorder, the last tree of the stack first.
fn write_nodes<K: Sink>(
    line: &mut Vec<u8>,
    pending: &mut Vec<&Tree>,
    out: &mut K,
) -> Result<(), OutsideFault>
    ensures ok { let text = lines_from_last (map (λ t. t.now) pending.old.items) in
        OnOk result (Grows (K.taken out.old) (K.taken out.new) text) }
    ensures err { let text = lines_from_last (map (λ t. t.now) pending.old.items) in
        OnErr result (GrowsByPrefix (K.taken out.old) (K.taken out.new) text) }
    ensures later { K.faults out.old ≤ K.faults out.new }
    ensures failed { FailsOnlyIf result (Rose (K.faults out.old) (K.faults out.new)) }
{
    while let Some(tree) = pending.pop() {
        let made = take_node(line, pending, tree);
        hand_over(out, line, made)?;
    }
    Ok(())
}

// Hands over the lines of the nodes of a tree.
fn write_tree_nodes<K: Sink>(
    alloc: Global,
    line: &mut Vec<u8>,
    tree: &Tree,
    out: &mut K,
) -> Result<(), OutsideFault>
    ensures ok { OnOk result (Grows (K.taken out.old) (K.taken out.new) (node_lines tree.now)) }
    ensures err { OnErr result (GrowsByPrefix (K.taken out.old) (K.taken out.new)
        (node_lines tree.now)) }
    ensures later { K.faults out.old ≤ K.faults out.new }
    ensures failed { FailsOnlyIf result (Rose (K.faults out.old) (K.faults out.new)) }
{
    let mut pending = Vec::new(alloc);
    match pending.push(tree) {
        Ok(()) => write_nodes(line, &mut pending, out),
        Err(_) => Err(OutsideFault::OutOfMemory),
    }
}

// Hands over the line of one word.
fn write_word<K: Sink>(line: &mut Vec<u8>, word: &[u8], out: &mut K) -> Result<(), OutsideFault>
    ensures ok { OnOk result (Grows (K.taken out.old) (K.taken out.new) (word.now ++ 10 ∷ [])) }
    ensures err { OnErr result (GrowsByPrefix (K.taken out.old) (K.taken out.new)
        (word.now ++ 10 ∷ [])) }
    ensures later { K.faults out.old ≤ K.faults out.new }
    ensures failed { FailsOnlyIf result (Rose (K.faults out.old) (K.faults out.new)) }
{
    let made = word_line(line, word);
    hand_over(out, line, made)
}

/// Hands the lines of a tree to a sink, one at a time, each with its newline: the text that `print_tree` gives. Memory is taken for one line
/// and for the trees that are left, of which there is one for each split above.
///
/// # Errors
/// Where the sink fails or memory runs out, a prefix of the text was taken.
pub fn write_tree<K: Sink>(alloc: Global, tree: &Tree, out: &mut K) -> Result<(), OutsideFault>
    ensures ok { OnOk result (Grows (K.taken out.old) (K.taken out.new) (tree_text tree.now)) }
    ensures err { OnErr result (GrowsByPrefix (K.taken out.old) (K.taken out.new)
        (tree_text tree.now)) }
    ensures later { K.faults out.old ≤ K.faults out.new }
    ensures failed { FailsOnlyIf result (Rose (K.faults out.old) (K.faults out.new)) }
{
    let mut line = Vec::new(alloc);
    write_word(&mut line, b"tree", out)?;
    write_tree_nodes(alloc, &mut line, tree, out)?;
    write_word(&mut line, b"end", out)
}

/// The text of a tree. It is read back where the tree is within the limits.
pub fn print_tree(alloc: Global, tree: &Tree) -> Result<Name, OutOfMemory>
    ensures { IfOk result (λ name. name ≡ tree_text tree.now) }
{
    let mut text = SureSink::new(alloc);
    match write_tree(alloc, tree, &mut text) {
        Ok(()) => name_from(alloc, text.taken()),
        Err(_) => Err(OutOfMemory),
    }
}
