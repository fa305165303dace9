//! How symbols go on in a network, by their numbers.

ghost use Rattle.std.specs.Prelude.{◌≡◌, ◌<◌, length};
ghost use Rattle.std.specs.List.{AllByRecursion};
ghost use Rattle.std.proofs.Props.{props};
ghost use Rattle.product_graph.specs.Inside.{HaveRows, numbers_after};

use sqlite_items::Items;

/// For each location of a network the numbers of the symbols that may follow there and are at no
/// host, in order; and the location of each symbol.
#[derive(Drop)]
pub struct Followers {
    pub(crate) rows: Items<Items<usize>>,
    pub(crate) places: Items<usize>,
    ghost whole: { HaveRows rows places } by { Prim.hlevel props },
}

impl Followers {
    /// The numbers of the symbols that may follow a symbol inside, in order.
    pub fn after(&self, symbol: usize) -> &[usize]
        requires { symbol < length self.now.places }
        ensures are { result.now ≡ numbers_after self.now.rows self.now.places symbol }
        ensures below { AllByRecursion (λ k. k < length self.now.places) result.now }
    {
        self.rows.as_slice()[self.places.as_slice()[symbol]].as_slice()
    }
}
