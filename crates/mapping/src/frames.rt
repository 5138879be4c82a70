// An element at a reference, as the searches and the questions on a point ask for it: its point, and its frame, which is the point together with the Jacobian. It knows the shape numbers and the map, and nothing of a mesh.
// At one family the work is straight code, from N to the sums: the family is a type, and what asks for an element of either writes both out.

ghost use Rattle.std.specs.Prelude.{◌≡◌};
ghost use Rattle.definition.specs.Mapping.{point_at, jacobian_at};

use definition::{GatheredElement, JacobianMatrix, Point, Reference};
use elements::{Family, Quad4, Quad9};

// The point at a reference of the element of family F that has these coordinates.
#[inline(always)]
#[tactic(auto, unfolding(definition::specs::Mapping::point_at))]
fn point_of<F: Family>(xy: &[f64; 18], r: Reference) -> Point
    ensures { result ≡ point_at (record { count = F.number; xy = xy.now }) r }
{
    crate::point_sum::<F>(xy, &F::shape(r))
}

// The point of an element at a reference.
// Kept: a choice on the family, which a gathered element has as a number. One function for this one and its three likes would need a trait for what is done at a family, and is no plainer.
#[inline(always)]
#[tactic(auto, unfolding(definition::specs::Mapping::point_at, definition::specs::Elements::shape_of, definition::specs::Elements::nodes_of))]
pub fn point_at(e: &GatheredElement, r: Reference) -> Point
    ensures { result ≡ point_at e.now r }
{
    if e.count == 9 {
        point_of::<Quad9>(&e.xy, r)
    } else {
        point_of::<Quad4>(&e.xy, r)
    }
}

// What one step of a search needs: the point of an element at a reference, and the Jacobian there.
#[derive(Clone, Copy)]
pub struct Frame {
    pub point: Point,
    pub jacobian: JacobianMatrix,
}

// The frame at a reference of the element of family F that has these coordinates. `F::shape` is called here, and not `point_of`: then the compiler
// makes the polynomials that N and its gradients share once.
#[inline(always)]
#[tactic(auto, unfolding(definition::specs::Mapping::point_at, definition::specs::Mapping::jacobian_at))]
pub fn frame_of<F: Family>(xy: &[f64; 18], r: Reference) -> Frame
    ensures point_value { result.point ≡ point_at (record { count = F.number; xy = xy.now }) r }
    ensures jacobian_value { result.jacobian ≡ jacobian_at (record { count = F.number; xy = xy.now }) r }
{
    let n = F::shape(r);
    let grad = F::grad_ref(r);
    Frame {
        point: crate::point_sum::<F>(xy, &n),
        jacobian: crate::jacobian_sum::<F>(xy, &grad),
    }
}

// The frame of an element at a reference.
// Kept: a choice on the family, which a gathered element has as a number. One function for this one and its three likes would need a trait for what is done at a family, and is no plainer.
#[inline(always)]
#[tactic(auto, unfolding(definition::specs::Mapping::point_at, definition::specs::Mapping::jacobian_at, definition::specs::Elements::shape_of, definition::specs::Elements::grad_ref_of, definition::specs::Elements::nodes_of))]
pub fn frame_at(e: &GatheredElement, r: Reference) -> Frame
    ensures point_value { result.point ≡ point_at e.now r }
    ensures jacobian_value { result.jacobian ≡ jacobian_at e.now r }
{
    if e.count == 9 {
        frame_of::<Quad9>(&e.xy, r)
    } else {
        frame_of::<Quad4>(&e.xy, r)
    }
}
