//! An order that keeps a relation.

ghost use Rattle.std.specs.Prelude.{◌≡◌, ◌==◌, filter, find, not, IfOk};
ghost use Rattle.gp_serial.specs.Graphs as s;
ghost use Rattle.gp_serial.specs.Relations.{is_edge};

use crate::graph::Graph;
use gp_base::NoMemory;
use std::alloc::Global;

/// Whether none of these numbers is before this one.
fn is_free(graph: &Graph, left: &[u32], t: u32) -> bool
    ensures { result ≡ s.is_free (is_edge graph.now) left.now t }
{
    for other in left {
        if graph.has(*other, t) {
            return false;
        }
    }
    true
}

/// The first of these numbers that none of them is before.
fn first_free(graph: &Graph, left: &[u32]) -> Option<u32>
    ensures { result ≡ find (s.is_free (is_edge graph.now) left.now) left.now }
{
    for t in left {
        if is_free(graph, left, *t) {
            return Some(*t);
        }
    }
    None
}

/// These numbers without one.
fn without(alloc: Global, left: &[u32], t: u32) -> Result<Vec<u32>, NoMemory>
    ensures { IfOk result (λ others. others.items ≡ filter (λ other. not (other == t)) left.now) }
{
    let mut others = Vec::with_capacity(alloc, left.len())?;
    for other in left {
        if *other != t {
            others.push(*other)?;
        }
    }
    Ok(others)
}

/// The numbers in an order that keeps the relation: again and again the first of those that are left that none of them is before. It ends where there
/// is none, so that it has all of them exactly if the relation has no cycle of them.
pub fn order_of(alloc: Global, graph: &Graph, all: &[u32]) -> Result<Vec<u32>, NoMemory>
    ensures { IfOk result (λ order. order.items ≡ s.order_of (is_edge graph.now) all.now) }
{
    let mut order = Vec::with_capacity(alloc, all.len())?;
    let mut left = Vec::with_capacity(alloc, all.len())?;
    left.extend_from_slice(all)?;
    for _ in 0..all.len() {
        match first_free(graph, &left) {
            Some(t) => {
                order.push(t)?;
                left = without(alloc, &left, t)?;
            }
            None => return Ok(order),
        }
    }
    Ok(order)
}
