// The stress operator: material times strain matrix of each point as four sparse rows, in three lent lists of rows, columns and values. A refusal leaves the lists as they were.
// It knows which questions a stress call asks, and which values a point has; how they become triplets is `operators`' matter.
#![tactic(auto)]

ghost use Rattle.definition.specs.Operators.{StressPromise};
ghost use Rattle.triplets.specs.Lent.{triplet_lists, SameLists};

use calls::{InterpolationCall, StressCall};
use definition::{OperatorCounts, Refusal};
use operators::Operator;
use triplets::TripletLists;

// A stress call as an operator.
#[derive(Drop)]
struct Stress<'c, 'a>(&'c StressCall<'a>);

impl<'c, 'a> Operator<4, 2> for Stress<'c, 'a> {
    ghost use Rattle.std.specs.Prelude.{[], ◌∷◌};
    ghost use Rattle.definition.specs.Operators.{stress_questions, basis_of, oriented_at};
    ghost use Rattle.definition.specs.Rows.{stress_entry};
    ghost use Rattle.operators.proofs.Promised.{few_and_enough};
    ghost use Rattle.std.proofs.Common.{rules};

    ghost base = { λ s. s.0.now.base };

    ghost questions = { λ s. stress_questions s.0.now };

    ghost value = { λ s p. stress_entry (oriented_at s.0.now p) s.0.now.formulation (basis_of s.0.now.base p) };

    ghost few_rows = { Prim.search rules };

    ghost few_columns = { Prim.search rules };

    ghost passed = { λ s lent e. unfold stress_questions in few_and_enough s.0.now.base _ (_ ∷ []) _ e };

    fn base(&self) -> &InterpolationCall<'_> {
        self.0.strain().base()
    }

    fn questions(&self, room: bool) -> Result<(), Refusal> {
        operator_questions::stress_questions(self.0, room)
    }

    // The element's material, turned where pairs are given, times the strain values.
    fn put_values(&self, p: usize, out: &mut [f64; 72]) {
        let base = self.base();
        let mesh = base.mesh();
        let element_index = base.element_at(p);
        let number = self.0.material_at(p);
        let oriented = self.0.materials().oriented(number, element_index);
        let mut strain = [0.0; 72];
        rows::put_strain_at(
            mesh,
            element_index,
            base.reference_at(p),
            self.0.strain().formulation(),
            &mut strain,
        );
        materials::put_stress_values(&oriented, &strain, mesh.family(), out);
    }
}

// The stress operator: material times strain, four rows a point and two columns a node.
// Kept: one line over `operators::build`, with a promise of its own; one function for the three would be `build` itself.
// Kept: that the lists are the same ones is a fact of two values, which no field and no model of one value can hold: a record over the two is the plainest.
#[tactic(auto, unfolding(definition::specs::Operators::stress))]
pub fn quad_mesh_stress_operator(
    call: &StressCall,
    lent: &mut TripletLists,
) -> Result<OperatorCounts, Refusal>
    ensures same { SameLists lent.old lent.new }
    ensures promise { StressPromise call.now (triplet_lists lent.old) result (triplet_lists lent.new) }
{
    operators::build(&Stress(call), lent)
}
