//! Laws about delegation trees as texts. Each is the contract of a function that does nothing.

ghost use Rattle.std.specs.Prelude.{◌≡◌, ℕ, List};
ghost use Rattle.delegation_text.specs.declared.entry.TreeEntry.{TreeEntry};
ghost use Rattle.delegation_text.specs.declared.fault.EntryFault.{EntryFault};
ghost use Rattle.delegation_text.specs.declared.fault.EntryFault.TheVariants as fault;
ghost use Rattle.delegation_text.specs.Trees.{IsDelegationText, RefusesTreeText, AreSameEntries, AreKeptEntries};

/// A text stands for one list of entries, word for word. It is not refused then, and the entries are those of a tree: from 1 to 64, with names that
/// differ, each but the first under one before it.
pub fn tree_texts()
    ensures one { (bytes : List ℕ) (entries other : List TreeEntry) →
        IsDelegationText bytes entries → IsDelegationText bytes other →
        AreSameEntries entries other }
    ensures refused { (bytes : List ℕ) (entries : List TreeEntry) (cause : EntryFault) →
        IsDelegationText bytes entries → RefusesTreeText bytes cause → cause ≡ fault.OutOfMemory }
    ensures kept { (bytes : List ℕ) (entries : List TreeEntry) →
        IsDelegationText bytes entries → AreKeptEntries entries }
{}
