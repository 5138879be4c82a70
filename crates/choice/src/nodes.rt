// The nearest node of a point, by squared distance, and the first of those that tie.
// It knows the definition, the mesh and the root; nothing of elements and faces.

ghost use Rattle.std.specs.Prelude.{◌≡◌};
ghost use Rattle.definition.specs.Mesh.{node_count};
ghost use Rattle.definition.specs.Choice.{pick, node_square, node_answer};
ghost use Rattle.choice.specs.Nodes.{node_place};

use definition::{Best, NodeProjection, Point};
use mesh::QuadMesh;

// The squared distance of node `node_index`.
// Kept: a mesh and a target are two values of the definition, and a struct made for these functions alone is no plainer.
fn node_square(mesh: &QuadMesh, node_index: usize, target: Point) -> f64
    ensures { result ≡ node_square mesh.now 0 target node_index }
{
    let point = mesh.node(node_index);
    binary64::squared_distance(point.x, point.y, target.x, target.y)
}

// The first node of the least squared distance, 0 where there is none. The walk keeps a number and a square alone: with the point beside them it takes half as long again.
// Not inlined: in a larger function no registers are left for the target.
// Kept: a mesh and a target are two values of the definition, and a struct made for these functions alone is no plainer.
#[inline(never)]
#[tactic(auto, using(crate::proofs::Choosing::goes_on, crate::proofs::Choosing::stays))]
fn nearest_node(mesh: &QuadMesh, target: Point) -> Best<usize>
    ensures { result ≡ node_place mesh.now target (pick (node_square mesh.now 0 target) (node_count mesh.now)) }
{
    let mut at = 0;
    let mut square = node_square(mesh, 0, target);
    for node_index in 0..mesh.num_nodes() {
        let next = node_square(mesh, node_index, target);
        if next < square {
            at = node_index;
            square = next;
        }
    }
    Best {
        at,
        point: mesh.node(at),
        square,
    }
}

// The nearest node, by squared distance. Where there is none it is node 0, at NaN.
// Kept: a mesh and a target are two values of the definition, and a struct made for these functions alone is no plainer.
pub fn nearest_node_projection(mesh: &QuadMesh, target: Point) -> NodeProjection
    ensures { result ≡ node_answer mesh.now 0 target (pick (node_square mesh.now 0 target) (node_count mesh.now)) }
{
    let Best { at, point, square } = nearest_node(mesh, target);
    NodeProjection {
        node_index: at,
        point,
        distance: root::root(square),
    }
}
