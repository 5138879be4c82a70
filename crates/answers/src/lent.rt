// The twelve lent lists of a query, as one value.
// One place a point, or two where a list has coordinate pairs. The Rust's `QuadMeshQueryResult`.
#[derive(Drop)]
pub struct QueryLists<'a> {
    pub nearest_node_indices: &'a mut [usize],
    pub nearest_node_points: &'a mut [f64],
    pub nearest_node_distances: &'a mut [f64],
    pub nearest_element_indices: &'a mut [usize],
    pub nearest_element_reference_points: &'a mut [f64],
    pub nearest_element_points: &'a mut [f64],
    pub nearest_element_distances: &'a mut [f64],
    pub nearest_face_element_indices: &'a mut [usize],
    pub nearest_face_local_faces: &'a mut [u8],
    pub nearest_face_reference_coordinates: &'a mut [f64],
    pub nearest_face_points: &'a mut [f64],
    pub nearest_face_distances: &'a mut [f64],
}
