// The choice among all elements and faces, and with the nearest node the twelve values of one point.
// It knows the definition, the nearest node, the searches and the mesh; nothing of lent lists.

ghost use Rattle.std.specs.Prelude.{◌≡◌};
ghost use Rattle.definition.specs.Choice.{point_answer};

use crate::near::Near;
use crate::nodes;
use definition::{ElementProjection, FaceProjection, Point, PointAnswer};
use mesh::QuadMesh;

// The twelve values of a point. The walk over the elements begins with element 0, and that over the faces with its face 0; where there is no element they stay.
// Kept: a mesh and a target are two values of the definition, and a struct made for these functions alone is no plainer.
#[tactic(auto, unfolding(definition::specs::Choice::point_answer, definition::specs::Search::closest_reference_point, definition::specs::Search::closest_face_point))]
pub fn answer_point(mesh: &QuadMesh, target: Point, max_iterations: usize) -> PointAnswer
    ensures { result ≡ point_answer mesh.now max_iterations target }
{
    let mut found = search::bests(&mesh.element_coords(0), target, max_iterations);
    let mut element = Near::new(0, found.element);
    let mut face = Near::new(0, found.faces[0]);
    // `len()` divided and not `num_elements()`: the length of a list bounds the faces' numbers.
    for element_index in 0..mesh.elements().len() / mesh.nodes_per_element() {
        if 0 < element_index {
            let e = mesh.element_coords(element_index);
            found = search::bests(&e, target, max_iterations);
        }
        element = element.or_nearer(element_index, found.element);
        // Faces are numbered by element and then face.
        for local_face in 0..4 {
            face = face.or_nearer(4 * element_index + local_face, found.faces[local_face]);
        }
    }
    PointAnswer {
        node: nodes::nearest_node_projection(mesh, target),
        element: ElementProjection {
            element_index: element.number,
            reference: element.best.at,
            point: element.best.point,
            distance: element.distance,
        },
        face: FaceProjection {
            element_index: face.number / 4,
            local_face: (face.number % 4) as u8,
            s: face.best.at,
            point: face.best.point,
            distance: face.distance,
        },
    }
}
