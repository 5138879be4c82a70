// The mesh: its family, the node list and the connectivity, held together and lent; and what is read of it. It knows the definition and the families: no question, no search and no job file.
// `nodes_rz` holds two coordinates a node, in the mesh's unit of length; `elements` is the connectivity, F node numbers an element. Element and node numbers start at 0.
// Any family and any two lists make a mesh, and every call has an answer for every number: whether the lists are whole is a question of the calls.
#![tactic(auto)]

ghost use Rattle.std.specs.Prelude.{◌≡◌, [], ◌∷◌, ◌≤◌, ltb, length};
ghost use Rattle.definition.specs.Elements.{nodes_of};
ghost use Rattle.definition.specs.Lists.{each, over};
ghost use Rattle.definition.specs.Mapping.{first, second};
ghost use Rattle.definition.specs.Mesh.{node_count, element_count, pair_at, element_nodes, node_of, gathered, distinct, repeated_count};

use definition::{GatheredElement, Point};
use std::marker::Model;

// A mesh of one family: its node list and its connectivity.
#[derive(Drop)]
pub struct QuadMesh<'a> {
    family: usize,
    nodes_rz: &'a [f64],
    elements: &'a [u32],
}

// A contract reads a mesh as the definition's.
impl<'a> Model for QuadMesh<'a> {
    ghost use Rattle.definition.specs.Mesh.{Mesh};

    ghost Value = { Mesh };

    ghost view = { λ m. record { family = m.family; nodes = m.nodes_rz.now; elements = m.elements.now } };
}

impl<'a> QuadMesh<'a> {
    pub fn new(family: usize, nodes_rz: &'a [f64], elements: &'a [u32]) -> QuadMesh<'a>
        ensures { result ≡ record { family = family; nodes = nodes_rz.now; elements = elements.now } }
    {
        QuadMesh {
            family,
            nodes_rz,
            elements,
        }
    }

    pub fn family(&self) -> usize
        ensures { result ≡ self.now.family }
    {
        self.family
    }

    pub fn nodes_rz(&self) -> &'a [f64]
        ensures { result.now ≡ self.now.nodes }
    {
        self.nodes_rz
    }

    pub fn elements(&self) -> &'a [u32]
        ensures { result.now ≡ self.now.elements }
    {
        self.elements
    }

    // F, the nodes of an element, 4 or 9.
    pub fn nodes_per_element(&self) -> usize
        ensures value { result ≡ nodes_of self.now.family }
        ensures bounds { (4 ≤ result) × (result ≤ 9) }
    {
        elements::nodes_per_element(self.family)
    }

    pub fn num_nodes(&self) -> usize
        ensures { result ≡ node_count self.now }
    {
        self.nodes_rz.len() / 2
    }

    pub fn num_elements(&self) -> usize
        ensures { result ≡ element_count self.now }
    {
        self.elements.len() / self.nodes_per_element()
    }

    // Where a node lies, at NaN where there is none.
    pub fn node(&self, node_index: usize) -> Point
        ensures { result ≡ pair_at self.now.nodes node_index }
    {
        lists::pair_at(self.nodes_rz, node_index)
    }

    // The node numbers of an element: the part of the lent connectivity that is its row. For a number outside the mesh it is empty, or what is left after the last whole row.
    #[tactic(auto, unfolding(definition::specs::Mesh::element_nodes))]
    pub fn element_nodes(&self, element_index: usize) -> &'a [u32]
        ensures { result.now ≡ element_nodes self.now element_index }
    {
        lists::part(self.elements, self.nodes_per_element(), element_index)
    }

    // The coordinates of an element's nodes, two a node in local order, over the lent array. A node outside the mesh has NaN for its coordinates, and a place outside the row has node 0.
    pub fn put_element_coords(&self, element_index: usize, xy: &mut [f64; 18])
        ensures { xy.new ≡ over (each (λ j. first self.now.nodes (node_of self.now element_index j) ∷ second self.now.nodes (node_of self.now element_index j) ∷ []) (nodes_of self.now.family)) xy.old }
    {
        let row = self.element_nodes(element_index);
        for local_index in 0..self.nodes_per_element() {
            let node_index = lists::get_or(row, local_index, 0) as usize;
            let p = self.node(node_index);
            xy[2 * local_index] = p.x;
            xy[2 * local_index + 1] = p.y;
        }
    }

    // The gathered element: F and the coordinates of its nodes, over zeros.
    #[tactic(auto, unfolding(definition::specs::Mesh::gathered, std::specs::Prelude::from_bits))]
    pub fn element_coords(&self, element_index: usize) -> GatheredElement
        ensures { result ≡ gathered self.now element_index }
    {
        let mut xy = [0.0; 18];
        self.put_element_coords(element_index, &mut xy);
        GatheredElement {
            count: self.nodes_per_element(),
            xy,
        }
    }

    // How many elements have fewer than F distinct nodes. It replaces the warning of `validate_connectivity`, and pairs are compared in place of a `HashSet`.
    #[tactic(auto, using(crate::proofs::Counting::count_next, crate::proofs::Rows::row_repeats), unfolding(definition::specs::Mesh::repeated_count, definition::specs::Lists::count_of))]
    pub fn repeated_elements(&self) -> usize
        ensures { result ≡ repeated_count self.now }
    {
        let mut repeated: usize = 0;
        for element_index in 0..self.num_elements() {
            if repeats(self.element_nodes(element_index)) {
                repeated += 1;
            }
        }
        repeated
    }
}

// Whether two nodes of a row are equal: it has fewer distinct numbers than places.
fn repeats(row: &[u32]) -> bool
    ensures { result ≡ ltb (distinct row.now) (length row.now) }
{
    for (i, node) in row.iter().enumerate() {
        if row[i + 1..].contains(node) {
            return true;
        }
    }
    false
}
