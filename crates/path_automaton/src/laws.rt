//! Laws of automata. Each is the contract of a function that does nothing.

ghost use Rattle.std.specs.Prelude.{◌≡◌, ◌↔◌, List};
ghost use Rattle.merlin_model.specs.declared.policy.Symbol.{Symbol};
ghost use Rattle.merlin_model.specs.declared.policy.Path.{Path};
ghost use Rattle.path_regex.specs.States.{IsSimpleFor};
ghost use Rattle.path_automaton.specs.States.{IsMadeOf, AreStates};
ghost use Rattle.path_automaton.specs.Automata.{AutomatonTables, AcceptsWordsOf, AcceptsListedWordsOf};
ghost use Rattle.path_automaton.specs.Automata.{IsSimpleIn, AreTablesOfPath};

/// The states of a path over a list of symbols have one numbering.
pub fn one_numbering()
    ensures { (path : Path) (symbols : List Symbol) (forms others : List Path) →
        AreStates path symbols forms → AreStates path symbols others → forms ≡ others }
{}

/// An automaton that accepts the words of a path accepts them by the numbers of their symbols.
pub fn listed_words_are_accepted()
    ensures { (symbols : List Symbol) (path : Path) (t : AutomatonTables) →
        AcceptsWordsOf symbols path t → AcceptsListedWordsOf symbols path t }
{}

/// A word is simple for a path exactly where it is simple in the automaton of the path.
pub fn simple_words_by_states()
    ensures { (path : Path) (symbols : List Symbol) (t : AutomatonTables) (forms : List Path) →
        AreTablesOfPath path symbols t forms → (w : List Symbol) → IsMadeOf symbols w →
        IsSimpleFor path w ↔ IsSimpleIn symbols t w }
{}
