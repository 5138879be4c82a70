// The questions of one point, which is also their place.
ghost use Rattle.std.specs.Prelude.{◌≡◌, [], ◌∷◌};
ghost use Rattle.definition.specs.Questions.{asked, outcome, element_known};
ghost use Rattle.point_questions.specs.Points.{place_asked, strain_asked, stress_asked};

use calls::{StrainCall, StressCall};
use definition::{QuestionKind, Refusal, Structural2dFormulation};
use mesh::QuadMesh;

// 2^-52: a radius up to it lies on the axis.
const EPSILON: f64 = 2.220446049250313e-16;

// Question 14 of point p: is its element's number in the mesh?
pub fn element_question(p: usize, mesh: &QuadMesh, element_index: usize) -> Result<(), Refusal>
    ensures { outcome result ≡ asked (element_known mesh.now p element_index ∷ []) tt }
{
    let known = element_index < mesh.num_elements();
    asking::ask(known, QuestionKind::ElementKnown, p)
}

// Questions 16 and 17 of point p: is the element not inverted there, and, axisymmetric, does the point lie off the axis? NaN passes both.
#[tactic(auto, unfolding(definition::specs::Questions::asked, std::specs::Prelude::from_bits))]
fn place_questions(p: usize, call: &StrainCall) -> Result<(), Refusal>
    ensures { let c = call.now in outcome result ≡ asked (place_asked c.base c.formulation p) tt }
{
    let base = call.base();
    let e = base.mesh().element_coords(base.element_at(p));
    let reference = base.reference_at(p);
    let frame = mapping::frame_at(&e, reference);
    let upright = !(mapping::det_j(frame.jacobian) <= 0.0);
    asking::ask(upright, QuestionKind::NotInverted, p)?;
    match call.formulation() {
        Structural2dFormulation::Axisymmetric => {
            let off_axis = !(frame.point.x <= EPSILON);
            asking::ask(off_axis, QuestionKind::OffAxis, p)
        }
        Structural2dFormulation::PlaneStrain { .. } => Ok(()),
    }
}

// The questions of point p in strain: 14, 16 and 17.
#[tactic(auto, unfolding(definition::specs::Questions::asked))]
pub(crate) fn strain_questions_at(p: usize, call: &StrainCall) -> Result<(), Refusal>
    ensures { outcome result ≡ asked (strain_asked call.now p) tt }
{
    let base = call.base();
    element_question(p, base.mesh(), base.element_at(p))?;
    place_questions(p, call)
}

// The questions of point p in stress: 14, 15, 16 and 17.
#[tactic(auto, unfolding(definition::specs::Questions::asked))]
pub(crate) fn stress_questions_at(p: usize, call: &StressCall) -> Result<(), Refusal>
    ensures { outcome result ≡ asked (stress_asked call.now p) tt }
{
    let strain = call.strain();
    let base = strain.base();
    element_question(p, base.mesh(), base.element_at(p))?;
    let known = call.material_at(p) < call.materials().num_materials();
    asking::ask(known, QuestionKind::MaterialKnown, p)?;
    place_questions(p, strain)
}
