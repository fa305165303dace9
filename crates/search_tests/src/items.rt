//! Two items, the first of cost 2 and the second of cost 1, of which one or both are wanted at the least cost, or three in vain.

ghost use Rattle.std.specs.Prelude.{◌≡◌, true, nat_lt};
ghost use Rattle.std.specs.Option.{option_copied};
ghost use Rattle.search_tests.specs.Items.{items_at, cost_of, cost_if, most_spent, least_taken};
ghost use Rattle.search_tests.specs.ItemLaws.{items-cutoffs, items-program};

use integer_program::Program;

/// How many of the two items are wanted at least.
#[derive(Clone, Copy)]
pub enum Wanted {
    One,
    Both,
    Three,
}

/// The program of two items.
#[derive(Clone, Copy)]
pub struct TwoItems {
    pub wanted: Wanted,
}

// The right side of the row that asks for so many.
fn least_taken(wanted: Wanted) -> i64
    ensures { result ≡ least_taken wanted }
{
    match wanted {
        Wanted::One => -1,
        Wanted::Both => -2,
        Wanted::Three => -3,
    }
}

// The cost of an item, where it is taken.
fn cost_if(is_taken: bool, cost: u64) -> u64
    ensures { result ≡ cost_if is_taken cost }
{
    if is_taken { cost } else { 0 }
}

/// The most that may be spent: less than the cutoff.
pub fn most_spent(cutoff: Option<&u64>) -> i64
    ensures { result ≡ most_spent (option_copied cutoff.entry) }
{
    match cutoff {
        None => 3,
        Some(z) => { if *z < 4 { *z as i64 - 1 } else { 3 } }
    }
}

impl Program for TwoItems {
    type Cutoff = u64;

    ghost instance = { λ it cutoff. items_at it.wanted cutoff };

    ghost takes = { λ it z. true };

    ghost easy = { λ it cutoff box. ⊥ };

    ghost neat = { λ it point. Unit {0} };

    ghost value = { λ it point. cost_of point };

    ghost is_below = { λ it a b. nat_lt a b };

    fn variables(&self) -> usize {
        2
    }

    fn rows(&self) -> usize {
        2
    }

    fn entries(&self, row: usize) -> &[(usize, i64)] {
        if row == 0 {
            &[(0, -1), (1, -1)]
        } else {
            &[(0, 2), (1, 1)]
        }
    }

    fn is_equality(&self, _row: usize) -> bool {
        false
    }

    fn right(&self, row: usize, cutoff: Option<&u64>) -> i64 {
        if row == 0 {
            least_taken(self.wanted)
        } else {
            most_spent(cutoff)
        }
    }

    fn upper(&self, variable: usize, cutoff: Option<&u64>) -> bool {
        match cutoff {
            None => true,
            Some(z) => { if variable == 0 { 2 < *z } else { 1 < *z } }
        }
    }

    fn cutoff_of(&self, point: &[bool]) -> u64 {
        cost_if(point[0], 2) + cost_if(point[1], 1)
    }

    fn below(&self, a: &u64, b: &u64) -> bool {
        *a < *b
    }

    ghost is_program = { λ it cutoff taken. items-program it.wanted cutoff };

    ghost cutoffs = { λ it. items-cutoffs it.wanted };
}
