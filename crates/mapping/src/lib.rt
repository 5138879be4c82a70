// The map from the reference square to the plane: points and Jacobians of one element, and what they give. The Rust's mapping.rs.
// It knows a gathered element, its number of nodes and their coordinates, and nothing of a mesh: no node numbers, no questions.
// Coordinates and gradients stand two a node; the places past the family's nodes are not read. Sums start at +0 and run in local node order.
#![tactic(auto)]

mod frames;
mod gradients;
mod jacobians;

ghost use Rattle.std.specs.Prelude.{◌≡◌};
ghost use Rattle.definition.specs.Elements.{nodes_of};
ghost use Rattle.definition.specs.Mapping.{map_point, jacobian_of};

use definition::{GatheredElement, JacobianMatrix, Point};
use elements::{Family, Quad4, Quad9};
pub use frames::{Frame, frame_at, frame_of, point_at};
pub use gradients::grad_phys;
pub use jacobians::{det_j, face_tangent, inv_j};

// The sum of N times x, and of N times y, over the nodes of one family: a number that the compiler knows, so the loop becomes straight code.
#[inline(always)]
#[tactic(auto, unfolding(std::specs::Prelude::from_bits, definition::specs::Mapping::map_point))]
fn point_sum<F: Family>(xy: &[f64; 18], n: &[f64; 9]) -> Point
    ensures { result ≡ map_point xy.now n.now (nodes_of F.number) }
{
    let mut point = Point { x: 0.0, y: 0.0 };
    for i in 0..F::NODES {
        point.x = point.x + n[i] * xy[2 * i];
        point.y = point.y + n[i] * xy[2 * i + 1];
    }
    point
}

// The sum of each coordinate times each gradient, over the nodes of one family.
#[inline(always)]
#[tactic(auto, unfolding(std::specs::Prelude::from_bits, definition::specs::Mapping::jacobian_of))]
fn jacobian_sum<F: Family>(xy: &[f64; 18], grad: &[f64; 18]) -> JacobianMatrix
    ensures { result ≡ jacobian_of xy.now grad.now (nodes_of F.number) }
{
    let mut jac = JacobianMatrix {
        xxi: 0.0,
        xeta: 0.0,
        yxi: 0.0,
        yeta: 0.0,
    };
    for i in 0..F::NODES {
        let x = xy[2 * i];
        let y = xy[2 * i + 1];
        let dxi = grad[2 * i];
        let deta = grad[2 * i + 1];
        jac.xxi = jac.xxi + x * dxi;
        jac.xeta = jac.xeta + x * deta;
        jac.yxi = jac.yxi + y * dxi;
        jac.yeta = jac.yeta + y * deta;
    }
    jac
}

// The point of an element that the shape numbers `n` lead to.
// Kept: a choice on the family, which a gathered element has as a number. One function for this one and its three likes would need a trait for what is done at a family, and is no plainer.
#[tactic(auto, unfolding(definition::specs::Elements::nodes_of))]
pub fn map_point(e: &GatheredElement, n: &[f64; 9]) -> Point
    ensures { result ≡ map_point e.now.xy n.now (nodes_of e.now.count) }
{
    if e.count == 9 {
        point_sum::<Quad9>(&e.xy, n)
    } else {
        point_sum::<Quad4>(&e.xy, n)
    }
}

// The Jacobian of an element that the gradients `grad` lead to.
// Kept: a choice on the family, which a gathered element has as a number. One function for this one and its three likes would need a trait for what is done at a family, and is no plainer.
#[tactic(auto, unfolding(definition::specs::Elements::nodes_of))]
pub fn jacobian(e: &GatheredElement, grad: &[f64; 18]) -> JacobianMatrix
    ensures { result ≡ jacobian_of e.now.xy grad.now (nodes_of e.now.count) }
{
    if e.count == 9 {
        jacobian_sum::<Quad9>(&e.xy, grad)
    } else {
        jacobian_sum::<Quad4>(&e.xy, grad)
    }
}
