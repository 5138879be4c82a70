// The three operators as C calls them, over slices and numbers, under plain names; the query and the job are in `exports`. `operator_exports_c` hands these to C under the same names, and include/sobrizenta.h explains every parameter.
// It knows the public calls and which numbers stand for their types. It asks no question of its own, so a refusal is the call's, and its answer is the call's in numbers.
#![tactic(auto)]

ghost use Rattle.std.specs.Prelude.{◌≡◌};
ghost use Rattle.definition.specs.Operators.{TripletLists as Lists, stress};
ghost use Rattle.calls.specs.Flat.{interpolation_call, strain_call, stress_call};
ghost use Rattle.numbers.specs.Numbers.{formulation_of, yes_of};
ghost use Rattle.operator_exports.specs.Operators.{InterpolationExported, StrainExported, StressExported};

use calls::{InterpolationCall, StrainCall, StressCall};
use materials::Materials;
use mesh::QuadMesh;
use numbers::OperatorNumbers;
use triplets::TripletLists;

// `quad_mesh_interpolation_operator`: one row a point and one column a node, in three lent lists.
// Kept: the C interface has each list, and each number, as a parameter of its own.
pub fn sobrizenta_interpolation_operator<'a>(
    family: usize,
    nodes_rz: &'a [f64],
    elements: &'a [u32],
    element_indices: &[usize],
    reference_points: &[f64],
    rows: &mut [usize],
    columns: &mut [usize],
    values: &mut [f64],
) -> OperatorNumbers
    ensures { InterpolationExported
        (interpolation_call family nodes_rz.now elements.now element_indices.now reference_points.now)
        (record { rows = rows.old; columns = columns.old; values = values.old })
        result
        (record { rows = rows.new; columns = columns.new; values = values.new }) }
{
    let mesh = QuadMesh::new(family, nodes_rz, elements);
    let call = InterpolationCall::new(mesh, element_indices, reference_points);
    let mut lent = TripletLists {
        rows,
        columns,
        values,
    };
    interpolation::quad_mesh_interpolation_operator(&call, &mut lent).into()
}

// `quad_mesh_strain_operator`: four rows a point and two columns a node. `formulation` 0 is axisymmetric, and any other number plane strain; the thickness is not read.
// Kept: the C interface has each list, and each number, as a parameter of its own.
pub fn sobrizenta_strain_operator<'a>(
    family: usize,
    nodes_rz: &'a [f64],
    elements: &'a [u32],
    element_indices: &[usize],
    reference_points: &[f64],
    formulation: usize,
    thickness: f64,
    rows: &mut [usize],
    columns: &mut [usize],
    values: &mut [f64],
) -> OperatorNumbers
    ensures { StrainExported
        (strain_call (interpolation_call family nodes_rz.now elements.now element_indices.now reference_points.now) (formulation_of formulation thickness))
        (record { rows = rows.old; columns = columns.old; values = values.old })
        result
        (record { rows = rows.new; columns = columns.new; values = values.new }) }
{
    let mesh = QuadMesh::new(family, nodes_rz, elements);
    let base = InterpolationCall::new(mesh, element_indices, reference_points);
    let call = StrainCall::new(base, numbers::formulation_of(formulation, thickness));
    let mut lent = TripletLists {
        rows,
        columns,
        values,
    };
    strain::quad_mesh_strain_operator(&call, &mut lent).into()
}

// The stress operator's call. A list of pairs that is not given is not read.
// Kept: the flag beside the list, as the C interface has them.
#[tactic(auto, using(calls::proofs::Pairs::pairs_unread))]
fn stress_call_of<'a>(
    strain: StrainCall<'a>,
    material_ids: &'a [usize],
    material_table: &'a [f64],
    pairs_given: bool,
    pairs: &'a [f64],
) -> StressCall<'a>
    ensures { let s = strain.entry in (lent : Lists) → stress result lent ≡ stress (stress_call s.base s.formulation material_ids.now material_table.now pairs_given pairs.now) lent }
{
    let pairs = pairs_given.then_some(pairs);
    let materials = Materials::new(material_ids, material_table, pairs);
    StressCall::new(strain, materials)
}

// `quad_mesh_stress_operator`: material times strain, likewise. `pairs_given` 0 is no, and any other number yes.
// Kept: the C interface has each list, and each number, as a parameter of its own.
pub fn sobrizenta_stress_operator<'a>(
    family: usize,
    nodes_rz: &'a [f64],
    elements: &'a [u32],
    element_indices: &[usize],
    reference_points: &[f64],
    formulation: usize,
    thickness: f64,
    material_ids: &[usize],
    material_table: &[f64],
    // Kept: a number, as the C interface has it.
    pairs_given: usize,
    pairs: &[f64],
    rows: &mut [usize],
    columns: &mut [usize],
    values: &mut [f64],
) -> OperatorNumbers
    ensures { StressExported
        (stress_call (interpolation_call family nodes_rz.now elements.now element_indices.now reference_points.now) (formulation_of formulation thickness) material_ids.now material_table.now (yes_of pairs_given) pairs.now)
        (record { rows = rows.old; columns = columns.old; values = values.old })
        result
        (record { rows = rows.new; columns = columns.new; values = values.new }) }
{
    let mesh = QuadMesh::new(family, nodes_rz, elements);
    let base = InterpolationCall::new(mesh, element_indices, reference_points);
    let strain = StrainCall::new(base, numbers::formulation_of(formulation, thickness));
    let call = stress_call_of(
        strain,
        material_ids,
        material_table,
        numbers::yes_of(pairs_given),
        pairs,
    );
    let mut lent = TripletLists {
        rows,
        columns,
        values,
    };
    stress::quad_mesh_stress_operator(&call, &mut lent).into()
}
