// The interpolation operator: the shape numbers of each point as a sparse row, in three lent lists of rows, columns and values. A refusal leaves the lists as they were.
// It knows which questions an interpolation call asks, and which values a point has; how they become triplets is `operators`' matter.
#![tactic(auto)]

ghost use Rattle.definition.specs.Operators.{InterpolationPromise};
ghost use Rattle.triplets.specs.Lent.{triplet_lists, SameLists};

use calls::InterpolationCall;
use definition::{OperatorCounts, Refusal};
use operators::Operator;
use triplets::TripletLists;

// An interpolation call as an operator.
#[derive(Drop)]
struct Interpolation<'c, 'a>(&'c InterpolationCall<'a>);

impl<'c, 'a> Operator<1, 1> for Interpolation<'c, 'a> {
    ghost use Rattle.std.specs.Prelude.{[], get_or};
    ghost use Rattle.std.specs.Float.{nan};
    ghost use Rattle.definition.specs.Elements.{shape_of};
    ghost use Rattle.definition.specs.Operators.{interpolation_questions, reference_at};
    ghost use Rattle.operators.proofs.Promised.{few_and_enough};
    ghost use Rattle.std.proofs.Common.{rules};
    ghost use native.Mathlib.Nat.{one-mul};

    ghost base = { λ s. s.0.now };

    ghost questions = { λ s. interpolation_questions s.0.now };

    ghost value = { λ s p i j d. get_or (shape_of s.0.now.mesh.family (reference_at s.0.now p).xi (reference_at s.0.now p).eta) j nan };

    ghost few_rows = { Prim.search rules };

    ghost few_columns = { Prim.search rules };

    ghost passed = { λ s lent e. unfold interpolation_questions in Prim.simp one-mul (few_and_enough s.0.now _ [] _ e) };

    fn base(&self) -> &InterpolationCall<'_> {
        self.0
    }

    fn questions(&self, room: bool) -> Result<(), Refusal> {
        operator_questions::interpolation_questions(self.0, room)
    }

    fn put_values(&self, p: usize, out: &mut [f64; 72]) {
        let mesh = self.0.mesh();
        let reference = self.0.reference_at(p);
        let shape = elements::shape(mesh.family(), reference);
        let count = mesh.nodes_per_element();
        out[..count].copy_from_slice(&shape[..count]);
    }
}

// The interpolation operator: one row a point, one column a node, and the shape numbers as values.
// Kept: one line over `operators::build`, with a promise of its own; one function for the three would be `build` itself.
// Kept: that the lists are the same ones is a fact of two values, which no field and no model of one value can hold: a record over the two is the plainest.
#[tactic(auto, unfolding(definition::specs::Operators::interpolation))]
pub fn quad_mesh_interpolation_operator(
    call: &InterpolationCall,
    lent: &mut TripletLists,
) -> Result<OperatorCounts, Refusal>
    ensures same { SameLists lent.old lent.new }
    ensures promise { InterpolationPromise call.now (triplet_lists lent.old) result (triplet_lists lent.new) }
{
    operators::build(&Interpolation(call), lent)
}
