// The mesh view: the node list and the connectivity, held together and lent. Each call over it makes a mesh of a family, and has the promise of the call of the same name.
// `nodes_rz` holds two coordinates a node, in the mesh's unit of length, and `elements` F node numbers an element, from 0. The family, 4 or 9, stands beside the view.
// The view is no more than the two lists: it asks nothing of them, and every call asks its own questions.
#![tactic(auto)]

ghost use Rattle.std.specs.Prelude.{◌≡◌, []};
ghost use Rattle.definition.specs.Mesh.{element_nodes};
ghost use Rattle.definition.specs.Operators.{InterpolationPromise, StrainPromise, StressPromise};
ghost use Rattle.definition.specs.Query.{QueryPromise};
ghost use Rattle.answers.specs.Lent.{query_lists, SameLists as SameQueryLists};
ghost use Rattle.triplets.specs.Lent.{triplet_lists, SameLists as SameTripletLists};
ghost use Rattle.calls.specs.Flat.{interpolation_call, strain_call, stress_call};
ghost use Rattle.query.specs.Query.{call};

use answers::QueryLists;
use calls::{InterpolationCall, QueryCall, StrainCall, StressCall};
use definition::{OperatorCounts, QueryCounts, Refusal, Structural2dFormulation};
use materials::Materials;
use mesh::QuadMesh;
use triplets::TripletLists;

// The Rust's `QuadMeshView2d`.
#[derive(Clone, Copy)]
pub struct QuadMeshView2d<'a> {
    pub nodes_rz: &'a [f64],
    pub elements: &'a [u32],
}

// The view of two lists.
pub fn quad_mesh_view<'a>(nodes_rz: &'a [f64], elements: &'a [u32]) -> QuadMeshView2d<'a>
    ensures { (result.nodes_rz ≡ nodes_rz.entry) × (result.elements ≡ elements.entry) }
{
    QuadMeshView2d { nodes_rz, elements }
}

// The node numbers of an element: the part of the held connectivity that is its row. See `mesh::QuadMesh::element_nodes`.
#[tactic(auto, unfolding(definition::specs::Mesh::element_nodes))]
pub fn element_nodes<'a>(family: usize, mesh: QuadMeshView2d<'a>, element_index: usize) -> &'a [u32]
    ensures { result.now ≡ element_nodes (record { family = family; nodes = []; elements = mesh.entry.elements.now }) element_index }
{
    let mesh = QuadMesh::new(family, mesh.nodes_rz, mesh.elements);
    mesh.element_nodes(element_index)
}

// The query over the view. See `query::query_quad_mesh`.
// Kept: the Rust has these four functions over a view. One that took a call in place of these parameters would be the one under it, and is no plainer; that the lists are the same ones is a fact of two values, which no model of one can hold.
pub fn query_quad_mesh<'a>(
    family: usize,
    max_iterations: usize,
    mesh: QuadMeshView2d<'a>,
    points: &[f64],
    lent: &mut QueryLists,
) -> Result<QueryCounts, Refusal>
    ensures same { SameQueryLists lent.old lent.new }
    ensures promise { QueryPromise
        (call family max_iterations mesh.entry.nodes_rz.now mesh.entry.elements.now points.now)
        (query_lists lent.old)
        result
        (query_lists lent.new) }
{
    let mesh = QuadMesh::new(family, mesh.nodes_rz, mesh.elements);
    let call = QueryCall::new(mesh, max_iterations, points);
    query::query_quad_mesh(&call, lent)
}

// The interpolation operator over the view. See `interpolation::quad_mesh_interpolation_operator`.
// Kept: the Rust has these four functions over a view. One that took a call in place of these parameters would be the one under it, and is no plainer; that the lists are the same ones is a fact of two values, which no model of one can hold.
pub fn quad_mesh_interpolation_operator<'a>(
    family: usize,
    mesh: QuadMeshView2d<'a>,
    element_indices: &[usize],
    reference_points: &[f64],
    lent: &mut TripletLists,
) -> Result<OperatorCounts, Refusal>
    ensures same { SameTripletLists lent.old lent.new }
    ensures promise { InterpolationPromise
        (interpolation_call family mesh.entry.nodes_rz.now mesh.entry.elements.now element_indices.now reference_points.now)
        (triplet_lists lent.old)
        result
        (triplet_lists lent.new) }
{
    let mesh = QuadMesh::new(family, mesh.nodes_rz, mesh.elements);
    let call = InterpolationCall::new(mesh, element_indices, reference_points);
    interpolation::quad_mesh_interpolation_operator(&call, lent)
}

// The strain operator over the view. See `strain::quad_mesh_strain_operator`.
// Kept: the Rust has these four functions over a view. One that took a call in place of these parameters would be the one under it, and is no plainer; that the lists are the same ones is a fact of two values, which no model of one can hold.
pub fn quad_mesh_strain_operator<'a>(
    family: usize,
    mesh: QuadMeshView2d<'a>,
    element_indices: &[usize],
    reference_points: &[f64],
    formulation: Structural2dFormulation,
    lent: &mut TripletLists,
) -> Result<OperatorCounts, Refusal>
    ensures same { SameTripletLists lent.old lent.new }
    ensures promise { StrainPromise
        (strain_call (interpolation_call family mesh.entry.nodes_rz.now mesh.entry.elements.now element_indices.now reference_points.now) formulation)
        (triplet_lists lent.old)
        result
        (triplet_lists lent.new) }
{
    let mesh = QuadMesh::new(family, mesh.nodes_rz, mesh.elements);
    let base = InterpolationCall::new(mesh, element_indices, reference_points);
    let call = StrainCall::new(base, formulation);
    strain::quad_mesh_strain_operator(&call, lent)
}

// The stress operator over the view. See `stress::quad_mesh_stress_operator`.
// Kept: the Rust has these four functions over a view. One that took a call in place of these parameters would be the one under it, and is no plainer; that the lists are the same ones is a fact of two values, which no model of one can hold.
pub fn quad_mesh_stress_operator<'a>(
    family: usize,
    mesh: QuadMeshView2d<'a>,
    element_indices: &[usize],
    reference_points: &[f64],
    formulation: Structural2dFormulation,
    materials: Materials,
    lent: &mut TripletLists,
) -> Result<OperatorCounts, Refusal>
    ensures same { SameTripletLists lent.old lent.new }
    ensures promise { let m = materials.entry in StressPromise
        (stress_call (interpolation_call family mesh.entry.nodes_rz.now mesh.entry.elements.now element_indices.now reference_points.now) formulation m.ids m.table m.pairs_given m.pairs)
        (triplet_lists lent.old)
        result
        (triplet_lists lent.new) }
{
    let mesh = QuadMesh::new(family, mesh.nodes_rz, mesh.elements);
    let base = InterpolationCall::new(mesh, element_indices, reference_points);
    let strain = StrainCall::new(base, formulation);
    let call = StressCall::new(strain, materials);
    stress::quad_mesh_stress_operator(&call, lent)
}
