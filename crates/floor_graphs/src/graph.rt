//! Graphs, and the least sums from their nodes to their ends.
ghost use Rattle.std.specs.Prelude.{◌≡◌, ◌<◌, ◌≤◌, ◌*◌, ◌^◌, ℕ, Bool, Option, Some, IfOk, IfSome, length, true};
ghost use Rattle.floor_graphs.specs.Numbers.{Step, LeadBack, AreLeast, AreSmall, AreSpanned, IsNumber, IsEndBelow, is_edge_by, lesser_of, number_in, sum_behind};
ghost use Rattle.floor_graphs.specs.Graphs.{AreChecked};

use fux_pitch::Memory;
use std::alloc::Global;

/// A graph whose nodes are numbered so that each edge leads back, to a node of lower number. Edges
/// are made as they are asked for.
pub trait Graph {
    /// The edge of a node under a label: the node that it leads to, and what it costs. None where
    /// there is no such edge.
    ghost edge_at: { Self → ℕ → ℕ → Option Step };

    /// How many labels the edges of a node have.
    ghost width: { Self → ℕ → ℕ };

    /// Whether the graph ends at a node.
    ghost ends_at: { Self → ℕ → Bool };

    /// How many nodes there are.
    ghost nodes: { Self → ℕ };

    /// How many nodes there are.
    fn size(&self) -> u32
        ensures { result ≡ nodes self.now };

    /// Whether the graph ends at a node.
    fn is_end(&self, node: u32) -> bool
        requires { node < nodes self.now }
        ensures { result ≡ ends_at self.now node };

    /// The labels of a node that may have edges: from the first of these on, up to the second.
    fn span(&self, node: u32) -> (usize, usize)
        requires { node < nodes self.now }
        ensures within { result.1 ≤ width self.now node }
        ensures edges { AreSpanned (edge_at self.now node) result.0 result.1 };

    /// The edge of a node under a label: the node that it leads to, and what it costs.
    fn edge(&self, node: u32, label: usize) -> Option<(u32, u32)>
        requires node { node < nodes self.now }
        requires label { label < width self.now node }
        ensures { result ≡ edge_at self.now node label };

    /// Edges lead back.
    ghost lead_back: { (graph : Self) → LeadBack (edge_at graph) (width graph) (nodes graph) };
}

/// The lesser of two sums; where one is none, the other.
pub fn lesser(one: Option<u64>, other: Option<u64>) -> Option<u64>
    ensures { result ≡ lesser_of one other }
{
    match (one, other) {
        (Some(x), Some(y)) => Some(x.min(y)),
        (Some(x), None) => Some(x),
        (None, _) => other,
    }
}

/// What an edge costs with the number behind it; none where there is no such edge, or no number
/// behind it.
fn sum_by<G: Graph>(graph: &G, numbers: &[Option<u64>], node: u32, label: usize) -> Option<u64>
    requires node { node < G.nodes graph.now }
    requires label { label < G.width graph.now node }
    requires earlier { length numbers.now ≡ node }
    requires small { AreSmall numbers.now }
    ensures value { result ≡ sum_behind (number_in numbers.now) (G.edge_at graph.now node label) }
    ensures small { IfSome result (λ sum. sum ≤ node * 2 ^ 32) }
{
    let (to, cost) = graph.edge(node, label)?;
    let behind = numbers[to as usize]?;
    Some(u64::from(cost) + behind)
}

/// The number of a node, from those of all nodes before it.
fn number_of<G: Graph>(graph: &G, numbers: &[Option<u64>], node: u32) -> Option<u64>
    requires node { node < G.nodes graph.now }
    requires earlier { length numbers.now ≡ node }
    requires small { AreSmall numbers.now }
    ensures number { IsNumber (G.ends_at graph.now node) (G.edge_at graph.now node)
        (G.width graph.now node) (number_in numbers.now) result }
    ensures small { IfSome result (λ sum. sum ≤ node * 2 ^ 32) }
{
    if graph.is_end(node) {
        return Some(0);
    }
    let (low, high) = graph.span(node);
    let mut least = None;
    for label in low..high {
        least = lesser(least, sum_by(graph, numbers, node, label));
    }
    least
}

/// The number of each node: the least sum of its ways to an end, and none where no way leads to
/// one.
pub fn least_numbers<G: Graph>(alloc: Global, graph: &G) -> Result<Vec<Option<u64>>, Memory>
    ensures least { IfOk result (λ numbers. AreLeast (G.edge_at graph.now) (G.width graph.now)
        (G.ends_at graph.now) (G.nodes graph.now) numbers.items) }
    ensures checked { IfOk result (λ numbers. AreChecked (is_edge_by (G.edge_at graph.now))
        (λ node. IsEndBelow (G.ends_at graph.now) (G.nodes graph.now) node)
        (number_in numbers.items)) }
    ensures small { IfOk result (λ numbers. AreSmall numbers.items) }
{
    let size = graph.size();
    let mut numbers = Vec::with_capacity(alloc, size as usize)?;
    for node in 0..size {
        let number = number_of(graph, &numbers, node);
        numbers.push_reserved(number);
    }
    Ok(numbers)
}
