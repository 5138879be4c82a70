// The questions of the three operators, in document 01's order: first those on the lists, then those of one point after the other. It knows the definition, the calls and the questions on a mesh and on a point: no triplet and no lent list.
// `room` is the answer of question 7, for the lists lent to the call.
#![tactic(auto)]

ghost use Rattle.std.specs.Prelude.{◌≡◌, [], ◌∷◌, ◌++◌, ◌*◌, length};
ghost use Rattle.definition.specs.Elements.{nodes_of};
ghost use Rattle.definition.specs.Questions.{asked, outcome, materials_whole, node_numbers, numbers_match, materials_match, pairs_match};
ghost use Rattle.definition.specs.Operators.{TripletLists, triplet_room, mesh_questions, interpolation_questions, strain_questions, stress_questions};

use calls::{InterpolationCall, StrainCall, StressCall};
use definition::{QuestionKind, Refusal};

// ---- on the lists

// Questions 1, 2, 3 and 5.
#[tactic(auto, unfolding(definition::specs::Questions::asked))]
fn mesh_questions(call: &InterpolationCall) -> Result<(), Refusal>
    ensures { outcome result ≡ asked (mesh_questions call.now) tt }
{
    mesh_questions::mesh_questions(call.mesh())?;
    let pairs_whole = asking::whole(2, call.reference_points().len());
    let whole = pairs_whole && call.num_points() <= 1000000;
    asking::ask(whole, QuestionKind::PointsWhole, 0)
}

// Questions 8 and 11.
#[tactic(auto, using(definition::proofs::Passing::asked_append), unfolding(definition::specs::Questions::asked))]
fn number_questions(call: &InterpolationCall) -> Result<(), Refusal>
    ensures { outcome result ≡ asked (node_numbers call.now.mesh ++ numbers_match call.now.element_indices call.now.reference_points ∷ []) tt }
{
    mesh_questions::connectivity_question(call.mesh())?;
    let matched = call.num_points() == call.reference_points().len() / 2;
    asking::ask(matched, QuestionKind::NumbersMatch, 0)
}

// ---- interpolation: 1, 2, 3, 5, 7, 8, 11, and for each point 14

// The questions of interpolation, in order.
// Kept: the definition's own list, in its order. The three lines before the points stand in strain too: a function for them needs a law for each of the two lists, which cuts it there, and is no plainer.
#[tactic(auto, using(definition::proofs::Passing::asked_append), unfolding(definition::specs::Questions::asked, definition::specs::Operators::interpolation_questions))]
pub fn interpolation_questions(call: &InterpolationCall, room: bool) -> Result<(), Refusal>
    ensures { (lent : TripletLists) → room ≡ triplet_room lent (nodes_of call.now.mesh.family * length call.now.element_indices) →
        outcome result ≡ asked (interpolation_questions call.now lent) tt }
{
    mesh_questions(call)?;
    asking::ask(room, QuestionKind::Room, 0)?;
    number_questions(call)?;
    point_questions::interpolation_point_questions(call)
}

// ---- strain: 1, 2, 3, 5, 7, 8, 11, and for each point 14, 16, 17

// The questions of strain, in order.
// Kept: the definition's own list, in its order; the three lines before the points stand in interpolation too, which says why.
#[tactic(auto, using(definition::proofs::Passing::asked_append), unfolding(definition::specs::Questions::asked, definition::specs::Operators::strain_questions))]
pub fn strain_questions(call: &StrainCall, room: bool) -> Result<(), Refusal>
    ensures { (lent : TripletLists) → room ≡ triplet_room lent (8 * nodes_of call.now.base.mesh.family * length call.now.base.element_indices) →
        outcome result ≡ asked (strain_questions call.now lent) tt }
{
    mesh_questions(call.base())?;
    asking::ask(room, QuestionKind::Room, 0)?;
    number_questions(call.base())?;
    point_questions::strain_point_questions(call)
}

// ---- stress: 1, 2, 3, 5, 6, 7, 8, 11, 12, 13, and for each point 14, 15, 16, 17

// Question 6: is the material table whole sixteens, at most 1,000,000 of them, and, if pairs are given, their list even?
#[tactic(auto, unfolding(definition::specs::Questions::asked))]
fn material_question(call: &StressCall) -> Result<(), Refusal>
    ensures { let c = call.now in outcome result ≡ asked (materials_whole c.material_table c.pairs_given c.pairs ∷ []) tt }
{
    let materials = call.materials();
    let table_whole = asking::whole(16, materials.table().len());
    let pairs_whole = materials.pairs().is_none_or(|pairs| pairs.len() % 2 == 0);
    asking::ask(table_whole && pairs_whole, QuestionKind::MaterialsWhole, 0)
}

// Questions 12 and 13: as many material numbers as elements, and, if pairs are given, as many pairs?
#[tactic(auto, unfolding(definition::specs::Questions::asked))]
fn element_questions(call: &StressCall) -> Result<(), Refusal>
    ensures { let c = call.now in outcome result ≡ asked (materials_match c.material_ids c.base.mesh ∷ pairs_match c.pairs_given c.pairs c.base.mesh ∷ []) tt }
{
    let materials = call.materials();
    let count = call.strain().base().mesh().num_elements();
    let matched = materials.ids().len() == count;
    asking::ask(matched, QuestionKind::MaterialsMatch, 0)?;
    let matched = materials
        .pairs()
        .is_none_or(|pairs| pairs.len() / 2 == count);
    asking::ask(matched, QuestionKind::PairsMatch, 0)
}

// The questions of stress, in order.
// Kept: the definition's own list, in its order, with questions of its own between the others'.
#[tactic(auto, using(crate::proofs::Parts::stress_parts))]
pub fn stress_questions(call: &StressCall, room: bool) -> Result<(), Refusal>
    ensures { (lent : TripletLists) → room ≡ triplet_room lent (8 * nodes_of call.now.base.mesh.family * length call.now.base.element_indices) →
        outcome result ≡ asked (stress_questions call.now lent) tt }
{
    let base = call.strain().base();
    mesh_questions(base)?;
    material_question(call)?;
    asking::ask(room, QuestionKind::Room, 0)?;
    number_questions(base)?;
    element_questions(call)?;
    point_questions::stress_point_questions(call)
}
