// What the families share: the trait of a family, and what a family's number leads to. It knows the definition and which families there are.
ghost use Rattle.std.specs.Prelude.{◌≡◌, ◌≤◌, ℕ};
ghost use Rattle.definition.specs.Elements.{nodes_of, shape_of, grad_ref_of};
ghost use Rattle.definition.specs.Questions.{is_family};

use crate::quad4::Quad4;
use crate::quad9::Quad9;
use definition::Reference;

// A family of elements, as a type: code that is generic over it is compiled once for each, and its loops over the nodes end at a number that the compiler knows.
pub trait Family {
    // The number that the definition knows the family by.
    ghost number: { ℕ };

    ghost NODES: { ℕ };

    // The nodes of an element.
    const NODES: usize;

    // The shape numbers N at a reference, one a node.
    fn shape(r: Reference) -> [f64; 9]
        ensures { result ≡ shape_of number r.xi r.eta };

    // The gradients of N at a reference, two a node: by xi, then by eta.
    fn grad_ref(r: Reference) -> [f64; 18]
        ensures { result ≡ grad_ref_of number r.xi r.eta };

    ghost nodes_are: { NODES ≡ nodes_of number };

    ghost nodes_fit: { NODES ≤ 9 };
}

// Whether the family is 4 or 9.
// Kept: a family by its number, since C and the job files name it so, and every number has an answer; a choice of the type, for which a function for both would need what is done at it handed in.
pub fn is_family(family: usize) -> bool
    ensures { result ≡ is_family family }
{
    family == 4 || family == 9
}

// The nodes of an element, 4 or 9. The bounds say to a loop over the nodes that their places are there.
// Kept: a family by its number, since C and the job files name it so, and every number has an answer; a choice of the type, for which a function for both would need what is done at it handed in.
#[tactic(auto, unfolding(definition::specs::Elements::nodes_of))]
pub fn nodes_per_element(family: usize) -> usize
    ensures value { result ≡ nodes_of family }
    ensures lower_bound { (4 ≤ result) × (result ≤ 9) }
{
    if family == 9 {
        Quad9::NODES
    } else {
        Quad4::NODES
    }
}

// The shape numbers N at a reference, one a node.
// Kept: a family by its number, since C and the job files name it so, and every number has an answer; a choice of the type, for which a function for both would need what is done at it handed in.
#[tactic(auto, unfolding(definition::specs::Elements::shape_of))]
pub fn shape(family: usize, r: Reference) -> [f64; 9]
    ensures { result ≡ shape_of family r.xi r.eta }
{
    if family == 9 {
        Quad9::shape(r)
    } else {
        Quad4::shape(r)
    }
}

// The gradients of N at a reference, two a node: by xi, then by eta.
// Kept: a family by its number, since C and the job files name it so, and every number has an answer; a choice of the type, for which a function for both would need what is done at it handed in.
#[tactic(auto, unfolding(definition::specs::Elements::grad_ref_of))]
pub fn grad_ref(family: usize, r: Reference) -> [f64; 18]
    ensures { result ≡ grad_ref_of family r.xi r.eta }
{
    if family == 9 {
        Quad9::grad_ref(r)
    } else {
        Quad4::grad_ref(r)
    }
}
