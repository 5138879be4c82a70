// The strain values of one point of an element, `build_b_matrix` of the Rust. It knows an element by the coordinates of its nodes, gathered from the mesh: no triplet and no question.
// The components are rr, zz, tt and rz (xx, yy, zz and xy), with engineering shear. Values stand by component, local node and displacement component, the order of the triplets.
#![tactic(auto)]

ghost use Rattle.std.specs.Prelude.{◌≡◌, [], ◌∷◌, ℕ, ◌+◌, ◌*◌, ◌≤◌, ◌<◌, length, get_or};
ghost use Rattle.std.specs.Float.{nan};
ghost use Rattle.definition.specs.Lists.{each};
ghost use Rattle.definition.specs.Elements.{nodes_of};
ghost use Rattle.definition.specs.Mesh.{gathered};
ghost use Rattle.definition.specs.Rows.{basis_at, hoop, strain_entry};
ghost use Rattle.materials.specs.Products.{over_from};
ghost use Rattle.rows.specs.Values.{listed, entry_by};

use definition::{GatheredElement, Reference, Structural2dFormulation};
use mesh::QuadMesh;
use std::array;

// ---- what the rows are made of, node after node

// The gradients by x and by y at a reference, two a node.
// Kept: an element and a reference in it are two values of the definition, and a struct made for these functions alone is no plainer.
#[tactic(auto, unfolding(definition::specs::Rows::basis_at, definition::specs::Mapping::jacobian_at))]
fn gradient_at(e: &GatheredElement, reference: Reference) -> [f64; 18]
    ensures { result ≡ (basis_at e.now reference).gradient }
{
    let grad_reference = elements::grad_ref(e.count, reference);
    let jac = mapping::jacobian(e, &grad_reference);
    mapping::grad_phys(e.count, &grad_reference, mapping::inv_j(jac))
}

// One number of each pair.
fn column(pairs: &[f64; 18], which: usize) -> [f64; 9]
    requires { which < 2 }
    ensures { (j : ℕ) → j < 9 → get_or result j nan ≡ get_or pairs.now (2 * j + which) nan }
{
    array::from_fn(|j| pairs[2 * j + which])
}

// The tt values of the nodes: N over the radius, or 0 in plane strain.
// Kept: an element and a reference in it are two values of the definition, and a struct made for these functions alone is no plainer.
#[tactic(auto, unfolding(definition::specs::Rows::basis_at, definition::specs::Mapping::point_at, std::specs::Prelude::from_bits))]
fn hoop_at(
    formulation: Structural2dFormulation,
    e: &GatheredElement,
    reference: Reference,
) -> [f64; 9]
    ensures { (j : ℕ) → j < 9 → get_or result j nan ≡ hoop formulation (basis_at e.now reference) j }
{
    match formulation {
        Structural2dFormulation::Axisymmetric => {
            let n = elements::shape(e.count, reference);
            let radius = mapping::map_point(e, &n).x;
            array::from_fn(|j| n[j] / radius)
        }
        Structural2dFormulation::PlaneStrain { thickness: _ } => [0.0; 9],
    }
}

// ---- the rows

// One component's row, two numbers a node, from a place on.
// Kept: the output and a place in it: with a slice from the place on, the proof needs laws of its own of what stands before it, which is no plainer.
fn put_pairs(first: &[f64], second: &[f64], at: usize, out: &mut [f64])
    requires alike { length second.now ≡ length first.now }
    requires room { at + 2 * length first.now ≤ length out.old }
    ensures { out.new ≡ over_from at (each (λ j. get_or first.now j nan ∷ get_or second.now j nan ∷ []) (length first.now)) out.old }
{
    for j in 0..first.len() {
        let k = at + 2 * j;
        out[k] = first[j];
        out[k + 1] = second[j];
    }
}

// The four rows, over the lent array, from the gradients by x and by y and the tt values of the nodes.
#[tactic(auto, using(crate::proofs::Strain::rows_written), unfolding(std::specs::Prelude::from_bits))]
fn strain_rows(by_x: &[f64], by_y: &[f64], hoop: &[f64], out: &mut [f64; 72])
    requires few { length by_x.now ≤ 9 }
    requires alike { (length by_y.now ≡ length by_x.now) × (length hoop.now ≡ length by_x.now) }
    ensures { out.new ≡ listed (entry_by by_x.now by_y.now hoop.now) (length by_x.now) out.old }
{
    let count = by_x.len();
    let zeros = &[0.0; 9][..count];
    put_pairs(by_x, zeros, 0, out);
    put_pairs(zeros, by_y, 2 * count, out);
    put_pairs(hoop, zeros, 4 * count, out);
    put_pairs(by_y, by_x, 6 * count, out);
}

// The strain values of a point, over the lent array: the value of component i, local node j and displacement component d stands at (i * F + j) * 2 + d. The places past the family's nodes keep what they held.
// Kept: an element and a reference in it are two values of the definition, and a struct made for these functions alone is no plainer.
#[tactic(auto, using(crate::proofs::Strain::entries_are))]
pub fn put_strain_values(
    formulation: Structural2dFormulation,
    e: &GatheredElement,
    reference: Reference,
    out: &mut [f64; 72],
)
    ensures { out.new ≡ listed (strain_entry formulation (basis_at e.now reference)) (nodes_of e.now.count) out.old }
{
    let count = elements::nodes_per_element(e.count);
    let gradient = gradient_at(e, reference);
    let by_x = column(&gradient, 0);
    let by_y = column(&gradient, 1);
    let hoop = hoop_at(formulation, e, reference);
    strain_rows(&by_x[..count], &by_y[..count], &hoop[..count], out);
}

// The strain values at a reference point of an element of the mesh, over the lent array.
#[tactic(auto, using(crate::proofs::Gathered::nodes_again), unfolding(definition::specs::Mesh::gathered))]
pub fn put_strain_at(
    mesh: &QuadMesh,
    element_index: usize,
    reference: Reference,
    formulation: Structural2dFormulation,
    out: &mut [f64; 72],
)
    ensures { out.new ≡ listed (strain_entry formulation (basis_at (gathered mesh.now element_index) reference)) (nodes_of mesh.now.family) out.old }
{
    put_strain_values(
        formulation,
        &mesh.element_coords(element_index),
        reference,
        out,
    );
}
