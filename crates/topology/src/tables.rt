//! Where the directed links of a network lead, by hash tables.
ghost use Rattle.std.specs.Prelude.{◌≡◌, map, IfOk};
ghost use Rattle.std.specs.Map.{keys_of};
ghost use Rattle.std.specs.List.{IsDistinct};
ghost use Rattle.topology.specs.Tables.{port_entry, ends_entry, AreLinkTables, HaveOwnKeys};

use indexmap::IndexMap;
use merlin_model::network::DirectedLink;
use std::alloc::{AllocError, Global};
use std::hash::Hash;

/// What is looked up of directed links.
#[derive(Drop)]
pub(crate) struct LinkTables {
    // by location and port: the location and port at the other end
    pub(crate) far_ends: IndexMap<(usize, u16), (usize, u16)>,
    // by two locations: the port of the first
    pub(crate) ports: IndexMap<(usize, usize), u16>,
}

// The table of entries whose keys differ.
fn table_of<K: Copy + Eq + Hash, V: Copy>(
    alloc: Global,
    entries: &[(K, V)],
) -> Result<IndexMap<K, V>, AllocError>
    requires { IsDistinct K.eq (keys_of entries.now) }
    ensures { IfOk result (λ table. table.entries ≡ entries.now) }
{
    let mut table = IndexMap::new(alloc);
    for entry in entries {
        table.insert(entry.0, entry.1)?;
    }
    Ok(table)
}

fn by_port(
    alloc: Global,
    directed_links: &[DirectedLink],
) -> Result<Vec<((usize, u16), (usize, u16))>, AllocError>
    ensures { IfOk result (λ entries. entries.items ≡ map port_entry directed_links.now) }
{
    directed_links
        .iter()
        .map(|directed| (
            (directed.from, directed.out_port),
            (directed.to, directed.in_port),
        ))
        .collect(alloc)
}

fn by_ends(
    alloc: Global,
    directed_links: &[DirectedLink],
) -> Result<Vec<((usize, usize), u16)>, AllocError>
    ensures { IfOk result (λ entries. entries.items ≡ map ends_entry directed_links.now) }
{
    directed_links
        .iter()
        .map(|directed| ((directed.from, directed.to), directed.out_port))
        .collect(alloc)
}

/// The directed links by location and port, and by both ends.
pub(crate) fn link_tables(
    alloc: Global,
    directed_links: &[DirectedLink],
) -> Result<LinkTables, AllocError>
    requires { HaveOwnKeys directed_links.now }
    ensures { IfOk result (λ tables.
        AreLinkTables tables.far_ends.entries tables.ports.entries directed_links.now) }
{
    let far_ends = by_port(alloc, directed_links)?;
    let far_ends = table_of(alloc, &far_ends)?;
    let ports = by_ends(alloc, directed_links)?;
    let ports = table_of(alloc, &ports)?;
    Ok(LinkTables { far_ends, ports })
}
