// The strain operator: the strain matrix of each point as four sparse rows, in three lent lists of rows, columns and values. A refusal leaves the lists as they were.
// It knows which questions a strain call asks, and which values a point has; how they become triplets is `operators`' matter.
#![tactic(auto)]

ghost use Rattle.definition.specs.Operators.{StrainPromise};
ghost use Rattle.triplets.specs.Lent.{triplet_lists, SameLists};

use calls::{InterpolationCall, StrainCall};
use definition::{OperatorCounts, Refusal};
use operators::Operator;
use triplets::TripletLists;

// A strain call as an operator.
#[derive(Drop)]
struct Strain<'c, 'a>(&'c StrainCall<'a>);

impl<'c, 'a> Operator<4, 2> for Strain<'c, 'a> {
    ghost use Rattle.std.specs.Prelude.{[]};
    ghost use Rattle.definition.specs.Operators.{strain_questions, basis_of};
    ghost use Rattle.definition.specs.Rows.{strain_entry};
    ghost use Rattle.operators.proofs.Promised.{few_and_enough};
    ghost use Rattle.std.proofs.Common.{rules};

    ghost base = { λ s. s.0.now.base };

    ghost questions = { λ s. strain_questions s.0.now };

    ghost value = { λ s p. strain_entry s.0.now.formulation (basis_of s.0.now.base p) };

    ghost few_rows = { Prim.search rules };

    ghost few_columns = { Prim.search rules };

    ghost passed = { λ s lent e. unfold strain_questions in few_and_enough s.0.now.base _ [] _ e };

    fn base(&self) -> &InterpolationCall<'_> {
        self.0.base()
    }

    fn questions(&self, room: bool) -> Result<(), Refusal> {
        operator_questions::strain_questions(self.0, room)
    }

    fn put_values(&self, p: usize, out: &mut [f64; 72]) {
        let base = self.0.base();
        rows::put_strain_at(
            base.mesh(),
            base.element_at(p),
            base.reference_at(p),
            self.0.formulation(),
            out,
        );
    }
}

// The strain operator: four rows a point (rr, zz, tt, rz or xx, yy, zz, xy), and two columns a node.
// Kept: one line over `operators::build`, with a promise of its own; one function for the three would be `build` itself.
// Kept: that the lists are the same ones is a fact of two values, which no field and no model of one value can hold: a record over the two is the plainest.
#[tactic(auto, unfolding(definition::specs::Operators::strain))]
pub fn quad_mesh_strain_operator(
    call: &StrainCall,
    lent: &mut TripletLists,
) -> Result<OperatorCounts, Refusal>
    ensures same { SameLists lent.old lent.new }
    ensures promise { StrainPromise call.now (triplet_lists lent.old) result (triplet_lists lent.new) }
{
    operators::build(&Strain(call), lent)
}
