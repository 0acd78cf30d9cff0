ghost use Rattle.std.specs.Prelude.{◌≡◌, ◌↔◌, ℕ, ◌<◌, ◌≤◌, ◌++◌, ◌∷◌, [], List, IsSome, IfSome, length};
ghost use Rattle.std.specs.Cmp.{partial_equiv_from_equiv};
ghost use Rattle.params.specs.Nodes.{same_nodes, same_nodes_equiv, nodes_input, nodes_input_alike};

use std::hash::{Hash, Hasher};
use std::marker::Model;

/// The nodes of a tone curve, at most 20: pairs of an input value and the output value there.
#[derive(Clone, Copy, Debug)]
pub struct Nodes20 {
    nodes: [(u32, u32); 20],
    count: usize,
}

impl Model for Nodes20 {
    ghost use Rattle.std.specs.Prelude.{◌≡◌, ℕ, ◌≤◌, ◌-◌, ◌++◌, List, take, drop, replicate, length};
    ghost use Rattle.params.specs.Nodes.{rejoined};

    ghost Value = { List (ℕ × ℕ) };

    ghost view = { λ n. take n.count n.nodes };

    ghost invariant = { λ n. (n.count ≤ 20) × (length n.nodes ≡ 20) × (drop n.count n.nodes ≡ replicate (20 - n.count) (0, 0)) };

    ghost inverse = { λ xs. record { nodes = xs ++ replicate (20 - length xs) (0, 0); count = length xs } };

    ghost inverse_ok = { λ n h. λ i. record { nodes = (rejoined n.count n.nodes h.0 h.1 h.2).0 i; count = (rejoined n.count n.nodes h.0 h.1 h.2).1 i } };
}

impl Nodes20 {
    /// No nodes.
    pub(crate) fn none() -> Nodes20
        ensures value { result ≡ [] }
    {
        Nodes20 {
            nodes: [(0, 0); 20],
            count: 0,
        }
    }

    /// A node behind the others.
    pub(crate) fn push(&mut self, node: (u32, u32))
        requires room { length self.old < 20 }
        ensures value { self.new ≡ self.old ++ node ∷ [] }
    {
        self.nodes[self.count] = node;
        self.count += 1;
    }

    /// The nodes of the list. `None` exactly where they are more than 20.
    pub fn of(nodes: &[(u32, u32)]) -> Option<Nodes20>
        ensures few { IsSome result ↔ (length nodes.now ≤ 20) }
        ensures value { IfSome result (λ n. n ≡ nodes.now) }
    {
        if nodes.len() > 20 {
            return None;
        }
        Some(Nodes20::few(nodes))
    }

    /// The nodes of a list of at most 20.
    pub(crate) fn few(nodes: &[(u32, u32)]) -> Nodes20
        requires few { length nodes.now ≤ 20 }
        ensures value { result ≡ nodes.now }
    {
        let mut kept = Nodes20::none();
        for node in nodes {
            kept.push(*node);
        }
        kept
    }

    /// The nodes, in their order.
    pub fn as_slice(&self) -> &[(u32, u32)]
        ensures value { result.now ≡ self.now }
        ensures few { length self.now ≤ 20 }
    {
        &self.nodes[..self.count]
    }
}

impl PartialEq for Nodes20 {
    ghost eq = { same_nodes };

    ghost laws = { partial_equiv_from_equiv same_nodes_equiv };

    fn eq(&self, other: &Nodes20) -> bool {
        self.as_slice() == other.as_slice()
    }
}

impl Eq for Nodes20 {
    ghost laws = { same_nodes_equiv };
}

impl Hash for Nodes20 {
    ghost hash_input = { nodes_input };

    ghost respects_eq = { nodes_input_alike };

    fn hash<H: Hasher>(&self, state: &mut H) {
        self.as_slice().hash(state);
    }
}
