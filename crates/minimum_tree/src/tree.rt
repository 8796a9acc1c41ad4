//! A tree of minima over a row of numbers.

ghost use Rattle.std.specs.Prelude.{◌≡◌, ◌≤◌, ◌<◌, ◌^◌, ◌*◌, ◌+◌, All, IfOk, get_or, length, min, set};
ghost use Rattle.minimum_tree.specs.Least.{IsLeast};
ghost use Rattle.minimum_tree.specs.Trees.{HasLevels};

use std::alloc::{AllocError, Global};
use std::marker::Model;

/// A row of numbers. Setting one, and finding the first least one, take as many steps as the length has binary digits.
/// Contracts see the row.
#[derive(Drop)]
pub struct MinimumTree {
    // the root is node 1, the children of node n are 2 n and 2 n + 1, and the row is the second half
    nodes: Vec<u32>,
    leaves: usize,
}

impl Model for MinimumTree {
    ghost use Rattle.std.specs.Prelude.{◌≡◌, ◌*◌, ℕ, List, drop, length};
    ghost use Rattle.minimum_tree.specs.Trees.{HasLevels, IsTree};

    ghost Value = { List ℕ };

    ghost view = { λ t. drop t.leaves t.nodes.items };

    ghost invariant = { λ t. HasLevels t.leaves × (length t.nodes.items ≡ 2 * t.leaves)
        × IsTree t.leaves t.nodes.items };
}

/// A power of two that is at least `count`.
fn leaves_for(count: u32) -> usize
    requires most { count ≤ 2 ^ 31 }
    ensures levels { HasLevels result }
    ensures enough { count ≤ result }
    ensures below { result ≤ 2 ^ 32 }
{
    let mut leaves: usize = 1;
    while leaves < count as usize {
        leaves *= 2;
    }
    leaves
}

/// The lesser of the numbers of a node's children.
fn lesser_child(nodes: &[u32], node: usize) -> u32
    requires { 2 * node + 1 < length nodes.now }
    ensures { result ≡ min (get_or nodes.now (2 * node) 0) (get_or nodes.now (2 * node + 1) 0) }
{
    nodes[2 * node].min(nodes[2 * node + 1])
}

impl MinimumTree {
    /// At least `count` numbers, all of them `value`.
    pub fn make(alloc: Global, count: u32, value: u32) -> Result<MinimumTree, AllocError>
        requires most { count ≤ 2 ^ 31 }
        ensures enough { IfOk result (λ tree. count ≤ length tree) }
        ensures same { IfOk result (λ tree. All (λ each. each ≡ value) tree) }
    {
        let leaves = leaves_for(count);
        let nodes = vec![in alloc; value; 2 * leaves]?;
        Ok(MinimumTree { nodes, leaves })
    }

    /// How many numbers there are.
    pub fn len(&self) -> usize
        ensures { result ≡ length self.now }
    {
        self.leaves
    }

    /// The number at that place.
    pub fn get(&self, place: usize) -> u32
        requires { place < length self.now }
        ensures { result ≡ get_or self.now place 0 }
    {
        self.nodes[self.leaves + place]
    }

    /// Puts a number at that place.
    pub fn set(&mut self, place: usize, value: u32)
        requires { place < length self.old }
        ensures { self.new ≡ set self.old place value }
    {
        let mut node = self.leaves + place;
        self.nodes[node] = value;
        while node > 1 {
            node /= 2;
            self.nodes[node] = lesser_child(&self.nodes, node);
        }
    }

    /// The place of the first of the least numbers.
    pub fn least(&self) -> usize
        ensures { IsLeast self.now result }
    {
        let mut node = 1;
        while node < self.leaves {
            node *= 2;
            if self.nodes[node + 1] < self.nodes[node] {
                node += 1;
            }
        }
        node - self.leaves
    }
}
