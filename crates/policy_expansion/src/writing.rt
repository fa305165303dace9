//! Statements written out, with the terms of their limits.
ghost use Rattle.std.specs.Prelude.{◌≡◌, [], ◌∷◌, ◌++◌, codes, decimal, map, flat_map, reverse, IfOk, OnOk};
ghost use Rattle.std.specs.List.{enumerate_from};
ghost use Rattle.policy_expansion.specs.WrittenOut.{from_source, to_destination, between, numbered as numbered_text, for_pair, written_out};
ghost use Rattle.policy_expansion.specs.Expansion.{term_of as limit_term};
ghost use Rattle.policy_expansion.specs.Adding.{Adds};
ghost use Rattle.policy_expansion.specs.Tables.{under};

use crate::pairs::pairs_of;
use crate::policy::Statement;
use crate::sets::{Sets, literals_in};
use merlin_model::policy::{Field, Part, Pred, Term, Test};
use merlin_model::{Name, OutOfMemory, name_from};
use policy_grammar::written::{Item, Limit, Literal, WrittenStatement};
use sqlite_items::Items;
use std::alloc::Global;

// Statements, and the terms of their limits.
#[derive(Drop)]
pub(crate) struct Written {
    pub(crate) statements: Items<Statement>,
    pub(crate) terms: Items<Term>,
}

// `eth.src = a` or `ip.src = a`.
fn source(a: Literal) -> Pred
    ensures { result ≡ from_source a }
{
    match a {
        Literal::Mac(value) => Pred::Test(Test::Is {
            field: Field::EthSrc,
            value,
        }),
        Literal::Ip(value) => Pred::Test(Test::Is {
            field: Field::IpSrc,
            value: u64::from(value),
        }),
    }
}

// `eth.dst = b` or `ip.dst = b`.
fn destination(b: Literal) -> Pred
    ensures { result ≡ to_destination b }
{
    match b {
        Literal::Mac(value) => Pred::Test(Test::Is {
            field: Field::EthDst,
            value,
        }),
        Literal::Ip(value) => Pred::Test(Test::Is {
            field: Field::IpDst,
            value: u64::from(value),
        }),
    }
}

// The predicate of a pair: its addresses and the written predicate.
fn pred_between(alloc: Global, pair: (Literal, Literal), pred: &Pred) -> Result<Pred, OutOfMemory>
    ensures { IfOk result (λ all. all ≡ between pair pred.now) }
{
    let mut parts = Items::new(alloc);
    parts.push(source(pair.0))?;
    parts.push(destination(pair.1))?;
    parts.push(pred.copy(alloc)?)?;
    Ok(Pred::All(parts))
}

// The id of the statement with this number.
fn numbered(alloc: Global, id: &Name, number: usize) -> Result<Name, OutOfMemory>
    ensures { IfOk result (λ name. name ≡ numbered_text id.now number) }
{
    let mut text = Vec::from_slice(alloc, id.bytes())?;
    text.extend_from_slice(b"_")?;
    let number = format!(in alloc; "{number}")?;
    text.extend_from_slice(number.as_bytes())?;
    name_from(alloc, &text)
}

// The statement of a pair, by its number.
fn statement_of(
    alloc: Global,
    statement: &WrittenStatement,
    number: usize,
    pair: (Literal, Literal),
) -> Result<WrittenStatement, OutOfMemory>
    ensures { IfOk result (λ own. own ≡ for_pair statement.now (number, pair)) }
{
    Ok(WrittenStatement {
        id: numbered(alloc, &statement.id, number)?,
        pred: pred_between(alloc, pair, &statement.pred)?,
        path: statement.path.copy(alloc)?,
        limits: Items::from_slice(alloc, statement.limits.as_slice())?,
    })
}

// The term that a limit of a statement stands for.
fn term_of(alloc: Global, id: &Name, limit: Limit) -> Result<Term, OutOfMemory>
    ensures { IfOk result (λ term. term ≡ limit_term id.now limit) }
{
    let mut parts = Vec::with_capacity(alloc, 1)?;
    parts.push(Part::Id(id.copy(alloc)?))?;
    Ok(Term {
        bound: limit.bound,
        parts: Items::from_vec(parts),
        rate: limit.rate,
    })
}

fn push_terms(
    alloc: Global,
    terms: &mut Items<Term>,
    id: &Name,
    limits: &[Limit],
) -> Result<(), OutOfMemory>
    ensures { OnOk result (terms.new ≡ terms.old ++ map (limit_term id.now) limits.now) }
{
    for limit in limits {
        terms.push(term_of(alloc, id, *limit)?)?;
    }
    Ok(())
}

impl Written {
    // Adds a statement.
    fn add(&mut self, alloc: Global, statement: WrittenStatement) -> Result<(), OutOfMemory>
        ensures { OnOk result (Adds self.old self.new (statement ∷ [])) }
    {
        let WrittenStatement {
            id,
            pred,
            path,
            limits,
        } = statement;
        push_terms(alloc, &mut self.terms, &id, limits.as_slice())?;
        self.statements.push(Statement { id, pred, path })?;
        Ok(())
    }

    fn add_pairs(
        &mut self,
        alloc: Global,
        pairs: &[(Literal, Literal)],
        statement: &WrittenStatement,
    ) -> Result<(), OutOfMemory>
        ensures { OnOk result (Adds self.old self.new
            (map (for_pair statement.now) (enumerate_from 1 pairs.now))) }
    {
        for (place, pair) in pairs.iter().enumerate() {
            let statement = statement_of(alloc, statement, place + 1, *pair)?;
            self.add(alloc, statement)?;
        }
        Ok(())
    }

    fn add_item(&mut self, alloc: Global, sets: &Sets<'_>, item: Item) -> Result<(), OutOfMemory>
        ensures { OnOk result (Adds self.old self.new (written_out (under sets.now) item)) }
    {
        match item {
            Item::One(statement) => self.add(alloc, statement),
            Item::ForEach {
                outer,
                inner,
                statement,
            } => {
                let pairs = pairs_of(alloc, literals_in(sets, &outer), literals_in(sets, &inner))?;
                self.add_pairs(alloc, &pairs, &statement)
            }
        }
    }
}

// The items from the last to the first.
fn reversed(alloc: Global, items: Items<Item>) -> Result<Items<Item>, OutOfMemory>
    ensures { IfOk result (λ back. back ≡ reverse items) }
{
    let mut left = items;
    let mut back = Items::new(alloc);
    'items: while let Some(item) = left.pop() {
        back.push(item)?;
    }
    Ok(back)
}

// The statements that the items stand for. A statement that stands for itself is moved.
pub(crate) fn write_out(
    alloc: Global,
    sets: &Sets<'_>,
    items: Items<Item>,
) -> Result<Written, OutOfMemory>
    ensures { IfOk result (λ written.
        Adds (record { statements = []; terms = [] }) written
        (flat_map (written_out (under sets.now)) items)) }
{
    let mut written = Written {
        statements: Items::new(alloc),
        terms: Items::new(alloc),
    };
    let mut left = reversed(alloc, items)?;
    'items: while let Some(item) = left.pop() {
        written.add_item(alloc, sets, item)?;
    }
    Ok(written)
}
