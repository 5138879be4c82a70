// The C interface of the three operators: the symbols of include/sobrizenta.h, which explains every parameter. Those of the query and the job are in `exports_c`.
// An object of their own: in one object with the query the questions on a point and the face search would share a frame, which the compiler then calls in place of inlining it.
// Each is the function of `operator_exports` with the same name, under the same contract. It knows nothing else.
// In C a slice is two parameters, a pointer and a length.
#![tactic(auto)]

ghost use Rattle.calls.specs.Flat.{interpolation_call, strain_call, stress_call};
ghost use Rattle.numbers.specs.Numbers.{formulation_of, yes_of};
ghost use Rattle.operator_exports.specs.Operators.{InterpolationExported, StrainExported, StressExported};

use numbers::OperatorNumbers;

// `quad_mesh_interpolation_operator`: one row a point and one column a node, in three lent lists.
// Kept: the C interface has each list, and each number, as a parameter of its own.
#[unsafe(no_mangle)]
pub extern "C" fn sobrizenta_interpolation_operator<'a>(
    family: usize,
    nodes_rz: &'a [f64],
    elements: &'a [u32],
    element_indices: &[usize],
    reference_points: &[f64],
    rows: &mut [usize],
    columns: &mut [usize],
    values: &mut [f64],
) -> OperatorNumbers
    ensures { InterpolationExported
        (interpolation_call family nodes_rz.now elements.now element_indices.now reference_points.now)
        (record { rows = rows.old; columns = columns.old; values = values.old })
        result
        (record { rows = rows.new; columns = columns.new; values = values.new }) }
{
    operator_exports::sobrizenta_interpolation_operator(
        family,
        nodes_rz,
        elements,
        element_indices,
        reference_points,
        rows,
        columns,
        values,
    )
}

// `quad_mesh_strain_operator`: four rows a point and two columns a node. `formulation` 0 is axisymmetric, and any other number plane strain; the thickness is not read.
// Kept: the C interface has each list, and each number, as a parameter of its own.
#[unsafe(no_mangle)]
pub extern "C" fn sobrizenta_strain_operator<'a>(
    family: usize,
    nodes_rz: &'a [f64],
    elements: &'a [u32],
    element_indices: &[usize],
    reference_points: &[f64],
    formulation: usize,
    thickness: f64,
    rows: &mut [usize],
    columns: &mut [usize],
    values: &mut [f64],
) -> OperatorNumbers
    ensures { StrainExported
        (strain_call (interpolation_call family nodes_rz.now elements.now element_indices.now reference_points.now) (formulation_of formulation thickness))
        (record { rows = rows.old; columns = columns.old; values = values.old })
        result
        (record { rows = rows.new; columns = columns.new; values = values.new }) }
{
    operator_exports::sobrizenta_strain_operator(
        family,
        nodes_rz,
        elements,
        element_indices,
        reference_points,
        formulation,
        thickness,
        rows,
        columns,
        values,
    )
}

// `quad_mesh_stress_operator`: material times strain, likewise. `pairs_given` 0 is no, and any other number yes.
// Kept: the C interface has each list, and each number, as a parameter of its own.
#[unsafe(no_mangle)]
pub extern "C" fn sobrizenta_stress_operator<'a>(
    family: usize,
    nodes_rz: &'a [f64],
    elements: &'a [u32],
    element_indices: &[usize],
    reference_points: &[f64],
    formulation: usize,
    thickness: f64,
    material_ids: &[usize],
    material_table: &[f64],
    // Kept: a number, as the C interface has it.
    pairs_given: usize,
    pairs: &[f64],
    rows: &mut [usize],
    columns: &mut [usize],
    values: &mut [f64],
) -> OperatorNumbers
    ensures { StressExported
        (stress_call (interpolation_call family nodes_rz.now elements.now element_indices.now reference_points.now) (formulation_of formulation thickness) material_ids.now material_table.now (yes_of pairs_given) pairs.now)
        (record { rows = rows.old; columns = columns.old; values = values.old })
        result
        (record { rows = rows.new; columns = columns.new; values = values.new }) }
{
    operator_exports::sobrizenta_stress_operator(
        family,
        nodes_rz,
        elements,
        element_indices,
        reference_points,
        formulation,
        thickness,
        material_ids,
        material_table,
        pairs_given,
        pairs,
        rows,
        columns,
        values,
    )
}
