// What the Jacobian of an element gives: its determinant, its inverse and the tangents of the faces. The Rust's mapping.rs, of its second half.
// It knows a matrix, and nothing of coordinates.

ghost use Rattle.std.specs.Prelude.{◌≡◌};
ghost use Rattle.definition.specs.Mapping.{det_j, inv_j, face_tangent};

use definition::{FaceReference, InverseJacobian, JacobianMatrix, Point};

// The area of the plane that a unit of the reference square becomes, negative where the corners run clockwise.
#[tactic(auto, unfolding(definition::specs::Mapping::det_j))]
pub fn det_j(jac: JacobianMatrix) -> f64
    ensures { result ≡ det_j jac }
{
    jac.xxi * jac.yeta - jac.xeta * jac.yxi
}

// The inverse, whatever the determinant: that it is above 0 is a question of the call that asks for the inverse.
#[tactic(auto, unfolding(std::specs::Prelude::from_bits, definition::specs::Mapping::inv_j))]
pub fn inv_j(jac: JacobianMatrix) -> InverseJacobian
    ensures { result ≡ inv_j jac }
{
    let inv_det = 1.0 / det_j(jac);
    InverseJacobian {
        xix: jac.yeta * inv_det,
        xiy: -jac.xeta * inv_det,
        etax: -jac.yxi * inv_det,
        etay: jac.xxi * inv_det,
    }
}

// The direction of a face in the plane, by its coordinate s.
#[tactic(auto, unfolding(definition::specs::Mapping::face_tangent))]
pub fn face_tangent(jac: JacobianMatrix, f: FaceReference) -> Point
    ensures { result ≡ face_tangent jac f }
{
    Point {
        x: jac.xxi * f.dxi + jac.xeta * f.deta,
        y: jac.yxi * f.dxi + jac.yeta * f.deta,
    }
}
