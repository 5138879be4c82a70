// The twelve lent lists of a query: whether they have room for the answers, and the answer of one point in its places.
// It knows the definition and the lengths of lists: no mesh, no search and no question. A list of points or references holds two numbers a point, in the mesh's unit of length for points.
// Every call has an answer for every list and every number: lengths are divided and no product is made, and a value without a place is left out.
#![tactic(auto)]

mod lent;

ghost use Rattle.std.specs.Prelude.{◌≡◌, ◌&&◌, ◌*◌, leb, set};
ghost use Rattle.definition.specs.Query.{query_room};
ghost use Rattle.answers.specs.Lent.{query_lists, SameLists};
ghost use Rattle.answers.specs.Stored.{pair_stored, node_stored, element_stored, face_stored, stored};

use definition::{ElementProjection, FaceProjection, NodeProjection, Point, PointAnswer};
pub use lent::QueryLists;

// ---- one value in its place

fn put<T: Copy>(list: &mut [T], p: usize, x: T)
    ensures { list.new ≡ set list.old p x }
{
    if p < list.len() {
        list[p] = x;
    }
}

fn put_pair(list: &mut [f64], p: usize, x: f64, y: f64)
    ensures { list.new ≡ pair_stored p x y list.old }
{
    if p < list.len() / 2 {
        list[2 * p] = x;
        list[2 * p + 1] = y;
    }
}

fn put_point(list: &mut [f64], p: usize, point: Point)
    ensures { list.new ≡ pair_stored p point.x point.y list.old }
{
    put_pair(list, p, point.x, point.y);
}

// ---- one point's answer in its places

// The nearest node of point p in its places.
// Kept: the lists as parameters, for a caller that has these and not all twelve; a struct for each of the three would be made anew at each call, and is no plainer.
#[inline(always)]
pub fn store_node(
    p: usize,
    node: NodeProjection,
    nearest_node_indices: &mut [usize],
    nearest_node_points: &mut [f64],
    nearest_node_distances: &mut [f64],
)
    ensures { (nearest_node_indices.new, nearest_node_points.new, nearest_node_distances.new)
        ≡ node_stored node p (nearest_node_indices.old, nearest_node_points.old, nearest_node_distances.old) }
{
    put(nearest_node_indices, p, node.node_index);
    put_point(nearest_node_points, p, node.point);
    put(nearest_node_distances, p, node.distance);
}

// The nearest element of point p in its places.
// Kept: the lists as parameters, for a caller that has these and not all twelve; a struct for each of the three would be made anew at each call, and is no plainer.
#[inline(always)]
pub fn store_element(
    p: usize,
    element: ElementProjection,
    nearest_element_indices: &mut [usize],
    nearest_element_reference_points: &mut [f64],
    nearest_element_points: &mut [f64],
    nearest_element_distances: &mut [f64],
)
    ensures { (nearest_element_indices.new, nearest_element_reference_points.new, nearest_element_points.new, nearest_element_distances.new)
        ≡ element_stored element p (nearest_element_indices.old, nearest_element_reference_points.old, nearest_element_points.old, nearest_element_distances.old) }
{
    put(nearest_element_indices, p, element.element_index);
    put_pair(
        nearest_element_reference_points,
        p,
        element.reference.xi,
        element.reference.eta,
    );
    put_point(nearest_element_points, p, element.point);
    put(nearest_element_distances, p, element.distance);
}

// The nearest face of point p in its places.
// Kept: the lists as parameters, for a caller that has these and not all twelve; a struct for each of the three would be made anew at each call, and is no plainer.
#[inline(always)]
pub fn store_face(
    p: usize,
    face: FaceProjection,
    nearest_face_element_indices: &mut [usize],
    nearest_face_local_faces: &mut [u8],
    nearest_face_reference_coordinates: &mut [f64],
    nearest_face_points: &mut [f64],
    nearest_face_distances: &mut [f64],
)
    ensures { (nearest_face_element_indices.new, nearest_face_local_faces.new, nearest_face_reference_coordinates.new, nearest_face_points.new, nearest_face_distances.new)
        ≡ face_stored face p (nearest_face_element_indices.old, nearest_face_local_faces.old, nearest_face_reference_coordinates.old, nearest_face_points.old, nearest_face_distances.old) }
{
    put(nearest_face_element_indices, p, face.element_index);
    put(nearest_face_local_faces, p, face.local_face);
    put(nearest_face_reference_coordinates, p, face.s);
    put_point(nearest_face_points, p, face.point);
    put(nearest_face_distances, p, face.distance);
}

// ---- room for the answers

// Whether a list of len places holds two for each of n points.
fn holds_pairs(len: usize, n: usize) -> bool
    ensures { result ≡ leb (2 * n) len }
{
    n <= len / 2
}

// Whether lists of these lengths hold the answers of n points.
pub fn holds_answers(
    n: usize,
    nearest_node_indices: usize,
    nearest_node_points: usize,
    nearest_node_distances: usize,
    nearest_element_indices: usize,
    nearest_element_reference_points: usize,
    nearest_element_points: usize,
    nearest_element_distances: usize,
    nearest_face_element_indices: usize,
    nearest_face_local_faces: usize,
    nearest_face_reference_coordinates: usize,
    nearest_face_points: usize,
    nearest_face_distances: usize,
) -> bool
    ensures { result ≡ leb n nearest_node_indices && leb (2 * n) nearest_node_points && leb n nearest_node_distances && leb n nearest_element_indices && leb (2 * n) nearest_element_reference_points && leb (2 * n) nearest_element_points && leb n nearest_element_distances && leb n nearest_face_element_indices && leb n nearest_face_local_faces && leb n nearest_face_reference_coordinates && leb (2 * n) nearest_face_points && leb n nearest_face_distances }
{
    n <= nearest_node_indices
        && holds_pairs(nearest_node_points, n)
        && n <= nearest_node_distances
        && n <= nearest_element_indices
        && holds_pairs(nearest_element_reference_points, n)
        && holds_pairs(nearest_element_points, n)
        && n <= nearest_element_distances
        && n <= nearest_face_element_indices
        && n <= nearest_face_local_faces
        && n <= nearest_face_reference_coordinates
        && holds_pairs(nearest_face_points, n)
        && n <= nearest_face_distances
}

// ---- the twelve lists as one value

impl<'a> QueryLists<'a> {
    // Whether the lists hold the answers of n points.
    #[tactic(auto, unfolding(definition::specs::Query::query_room))]
    pub fn has_room(&self, n: usize) -> bool
        ensures { result ≡ query_room (query_lists self.now) n }
    {
        holds_answers(
            n,
            self.nearest_node_indices.len(),
            self.nearest_node_points.len(),
            self.nearest_node_distances.len(),
            self.nearest_element_indices.len(),
            self.nearest_element_reference_points.len(),
            self.nearest_element_points.len(),
            self.nearest_element_distances.len(),
            self.nearest_face_element_indices.len(),
            self.nearest_face_local_faces.len(),
            self.nearest_face_reference_coordinates.len(),
            self.nearest_face_points.len(),
            self.nearest_face_distances.len(),
        )
    }

    // The answer of point p in its places.
    // Kept: that the lists are the same ones is a fact of two values, which no field and no model of one value can hold: a record over the two is the plainest.
    pub fn store(&mut self, p: usize, answer: PointAnswer)
        ensures same { SameLists self.old self.new }
        ensures value { query_lists self.new ≡ stored answer p (query_lists self.old) }
    {
        let PointAnswer {
            node,
            element,
            face,
        } = answer;
        store_node(
            p,
            node,
            self.nearest_node_indices,
            self.nearest_node_points,
            self.nearest_node_distances,
        );
        store_element(
            p,
            element,
            self.nearest_element_indices,
            self.nearest_element_reference_points,
            self.nearest_element_points,
            self.nearest_element_distances,
        );
        store_face(
            p,
            face,
            self.nearest_face_element_indices,
            self.nearest_face_local_faces,
            self.nearest_face_reference_coordinates,
            self.nearest_face_points,
            self.nearest_face_distances,
        );
    }
}
