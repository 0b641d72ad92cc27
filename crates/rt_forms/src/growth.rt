// Nodes are made for a listener. Nothing leads to them until all stand.
ghost use Rattle.std.specs.Prelude.{◌≡◌, ◌≢◌, ℕ, Some, IfOk, OnErr};
ghost use Rattle.std.specs.Option.{option_map};
ghost use Rattle.slab.specs.Slab.{get, slab_len};
ghost use Rattle.rt_nodes.specs.Forest.{row_at};
ghost use Rattle.rt_nodes.specs.Changes.{Grown, Same};
ghost use Rattle.rt_forms.specs.inside.Trees.{Made};

use crate::standing::Standing;
use rt_nodes::Linked;
use rt_query::Query;
use rt_tree::Key;
use std::alloc::{AllocError, Global};

// Makes a node with what a listener of the query's form has at `rest` below it, and all nodes between.
pub(crate) fn grow(
    nodes: &mut Linked<Standing>,
    alloc: Global,
    parent: Option<usize>,
    key: &Key,
    rest: &[Key],
    number: u64,
    query: &Query,
) -> Result<usize, AllocError>
    ensures grown { IfOk result (λ index. Grown nodes.old nodes.new (Some index) parent) }
    ensures made { IfOk result (λ index.
        Made (row_at nodes.new (Some index)) index key.now rest.now query.now number) }
    ensures err { OnErr result (Same nodes.old nodes.new) }
{
    let mut standing = Standing::new(alloc);
    let Some((child, rest)) = rest.split_first() else {
        standing.add(alloc, number, query)?;
        let index = nodes.insert(alloc, parent, key, standing)?;
        return Ok(index);
    };
    let index = nodes.insert(alloc, parent, key, Standing::new(alloc))?;
    match grow(nodes, alloc, Some(index), child, rest, number, query) {
        Ok(below) => {
            standing.pass();
            nodes.set_content(index, standing, Some(below));
            Ok(index)
        }
        Err(error) => {
            nodes.remove(index);
            Err(error)
        }
    }
}
