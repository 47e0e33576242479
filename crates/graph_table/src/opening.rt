//! How a table begins: the words of a new one, in which all nodes are free.

ghost use Rattle.std.specs.Prelude.{◌≡◌, ◌≤◌, ◌++◌, replicate, IfOk};
ghost use Rattle.core_journal.specs.Machine.{opening_words};
ghost use Rattle.core_rule.specs.Rule.{first_view};
ghost use Rattle.graph_table.specs.Opening.{nodes_from};
ghost use Rattle.graph_table.specs.Tokens.{IsOf};

use crate::table::{GraphTable, Token};
use atomic_table::Table;
use graph_kinds::Memory;
use packed_link::{Layout, Link};
use std::alloc::{AllocError, Global};

impl GraphTable {
    /// A new table, all of whose nodes are free, and its first token, in O(number of words). The journal is empty, and
    /// the token has an empty book, no number, and the right to draw. `Memory` comes where memory is wanted.
    pub fn new(alloc: Global, layout: Layout) -> Result<(GraphTable, Token), Memory>
        ensures made { IfOk result (λ made. (made.0.sizes ≡ layout) × IsOf made.0 made.1
            × (made.1.view ≡ first_view layout)) }
    {
        let Ok(words) = first_words(alloc, &layout) else {
            return Err(Memory);
        };
        let Ok((table, seat)) = Table::of_words(alloc, words.as_slice(), &layout) else {
            return Err(Memory);
        };
        Ok((GraphTable { table, layout }, Token { number: 0, seat }))
    }
}

/// The words of a new table.
fn first_words(alloc: Global, layout: &Layout) -> Result<Vec<u64>, AllocError>
    ensures { IfOk result (λ words. words.items ≡ opening_words layout.now) }
{
    let words = Vec::with_capacity(alloc, layout.words() as usize)?;
    let words = with_words(words, 4 + layout.callers(), 0)?;
    let words = with_words(words, layout.buckets(), 16_777_215)?;
    let words = with_nodes(words, layout.nodes())?;
    Ok(words)
}

/// So many of one word behind those that are there.
fn with_words(words: Vec<u64>, count: u32, word: u64) -> Result<Vec<u64>, AllocError>
    ensures { IfOk result (λ made. made.items ≡ words.items ++ replicate count word) }
{
    let mut made = words;
    let mut done = 0u32;
    while done < count {
        made.push(word)?;
        done += 1;
    }
    Ok(made)
}

/// The words of so many free nodes behind those that are there.
fn with_nodes(words: Vec<u64>, nodes: u32) -> Result<Vec<u64>, AllocError>
    requires { nodes ≤ 65536 }
    ensures { IfOk result (λ made. made.items ≡ words.items ++ nodes_from nodes nodes) }
{
    let mut made = words;
    let mut done = 0u32;
    while done < nodes {
        let next = if done + 1 == nodes {
            16_777_215
        } else {
            done + 1
        };
        made.push(0)?;
        made.push(Link::pack(next, true, 0).0)?;
        made.push(0)?;
        made.push(0)?;
        done += 1;
    }
    Ok(made)
}
