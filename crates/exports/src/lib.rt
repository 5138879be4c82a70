// The query and the job as C calls them, over slices and numbers, under plain names; the operators are in `operator_exports`. `exports_c` hands these to C under the same names, and include/sobrizenta.h explains every parameter.
// It knows the public calls and which numbers stand for their types. It asks no question of its own, so a refusal is the call's, and its answer is the call's in numbers.
#![tactic(auto)]

ghost use Rattle.query.specs.Query.{call, lists};
ghost use Rattle.exports.specs.Query.{QueryExported};
ghost use Rattle.exports.specs.Job.{JobExported};

use answers::QueryLists;
use calls::QueryCall;
use mesh::QuadMesh;
use numbers::{JobNumbers, QueryNumbers};

// `query_quad_mesh`: the nearest node, element and face of each point, in twelve lent lists.
// Kept: the C interface has each list, and each number, as a parameter of its own.
pub fn sobrizenta_query_quad_mesh<'a>(
    family: usize,
    max_iterations: usize,
    nodes_rz: &'a [f64],
    elements: &'a [u32],
    points: &[f64],
    nearest_node_indices: &mut [usize],
    nearest_node_points: &mut [f64],
    nearest_node_distances: &mut [f64],
    nearest_element_indices: &mut [usize],
    nearest_element_reference_points: &mut [f64],
    nearest_element_points: &mut [f64],
    nearest_element_distances: &mut [f64],
    nearest_face_element_indices: &mut [usize],
    nearest_face_local_faces: &mut [u8],
    nearest_face_reference_coordinates: &mut [f64],
    nearest_face_points: &mut [f64],
    nearest_face_distances: &mut [f64],
) -> QueryNumbers
    ensures { QueryExported
        (call family max_iterations nodes_rz.now elements.now points.now)
        (lists nearest_node_indices.old nearest_node_points.old nearest_node_distances.old nearest_element_indices.old nearest_element_reference_points.old nearest_element_points.old nearest_element_distances.old nearest_face_element_indices.old nearest_face_local_faces.old nearest_face_reference_coordinates.old nearest_face_points.old nearest_face_distances.old)
        result
        (lists nearest_node_indices.new nearest_node_points.new nearest_node_distances.new nearest_element_indices.new nearest_element_reference_points.new nearest_element_points.new nearest_element_distances.new nearest_face_element_indices.new nearest_face_local_faces.new nearest_face_reference_coordinates.new nearest_face_points.new nearest_face_distances.new) }
{
    let mesh = QuadMesh::new(family, nodes_rz, elements);
    let call = QueryCall::new(mesh, max_iterations, points);
    let mut lent = QueryLists {
        nearest_node_indices,
        nearest_node_points,
        nearest_node_distances,
        nearest_element_indices,
        nearest_element_reference_points,
        nearest_element_points,
        nearest_element_distances,
        nearest_face_element_indices,
        nearest_face_local_faces,
        nearest_face_reference_coordinates,
        nearest_face_points,
        nearest_face_distances,
    };
    query::query_quad_mesh(&call, &mut lent).into()
}

// `answer_job`: from a job's bytes to its listing's bytes, in a lent output of at least 30,738 bytes.
pub fn sobrizenta_answer_job(job: &[u8], listing: &mut [u8]) -> JobNumbers
    ensures { JobExported job.now listing.old result listing.new }
{
    job::answer_job(job, listing).into()
}
