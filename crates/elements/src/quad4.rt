// Family 4, the bilinear element: its nodes are (-1, -1), (1, -1), (1, 1) and (-1, 1), and nothing else is known here. The Rust's quad4.rs.

ghost use Rattle.std.proofs.Common.{refl, rules};
ghost use Rattle.definition.specs.Elements.{nodes_of};

use crate::families::Family;
use definition::Reference;

pub struct Quad4;

impl Family for Quad4 {
    ghost number = { 4 };

    ghost NODES = { 4 };

    const NODES: usize = 4;

    ghost nodes_are = { unfold nodes_of in refl };

    ghost nodes_fit = { Prim.search rules };

    // Each product runs from left to right: a quarter, the factor in xi, the factor in eta. Another grouping rounds otherwise.
    #[tactic(auto, unfolding(std::specs::Prelude::from_bits, definition::specs::Elements::shape_of, definition::specs::Elements::shape4))]
    fn shape(r: Reference) -> [f64; 9] {
        let Reference { xi, eta } = r;
        [
            0.25 * (1.0 - xi) * (1.0 - eta),
            0.25 * (1.0 + xi) * (1.0 - eta),
            0.25 * (1.0 + xi) * (1.0 + eta),
            0.25 * (1.0 - xi) * (1.0 + eta),
            0.0,
            0.0,
            0.0,
            0.0,
            0.0,
        ]
    }

    // By xi, then by eta, node after node.
    fn grad_ref(r: Reference) -> [f64; 18] {
        let Reference { xi, eta } = r;
        [
            -0.25 * (1.0 - eta),
            -0.25 * (1.0 - xi),
            0.25 * (1.0 - eta),
            -0.25 * (1.0 + xi),
            0.25 * (1.0 + eta),
            0.25 * (1.0 + xi),
            -0.25 * (1.0 + eta),
            0.25 * (1.0 - xi),
            0.0,
            0.0,
            0.0,
            0.0,
            0.0,
            0.0,
            0.0,
            0.0,
            0.0,
            0.0,
        ]
    }
}
