// The questions that the operators ask of one point after the other: 14 for interpolation, and 14, 15, 16 and 17 for strain and stress. The first no is the answer, with the point as its place.
// It knows the definition, the calls, the mesh and an element's map; nothing of a triplet.
#![tactic(auto)]

mod points;
mod walk;

ghost use Rattle.std.specs.Prelude.{◌≡◌};
ghost use Rattle.definition.specs.Questions.{asked, outcome};
ghost use Rattle.definition.specs.Operators.{each_point};
ghost use Rattle.point_questions.specs.Points.{interpolation_asked, strain_asked, stress_asked};

use calls::{InterpolationCall, StrainCall, StressCall};
use definition::Refusal;
pub use points::element_question;

// Question 14 of each point.
// Kept: one line over `walk::each_point`, with a call and questions of its own; one function for the three would be `each_point` itself.
pub fn interpolation_point_questions(call: &InterpolationCall) -> Result<(), Refusal>
    ensures { outcome result ≡ asked (each_point call.now (interpolation_asked call.now)) tt }
{
    walk::each_point(call.num_points(), |p| {
        element_question(p, call.mesh(), call.element_at(p))
    })
}

// Questions 14, 16 and 17 of each point.
// Kept: one line over `walk::each_point`, with a call and questions of its own; one function for the three would be `each_point` itself.
pub fn strain_point_questions(call: &StrainCall) -> Result<(), Refusal>
    ensures { outcome result ≡ asked (each_point call.now.base (strain_asked call.now)) tt }
{
    walk::each_point(call.base().num_points(), |p| {
        points::strain_questions_at(p, call)
    })
}

// Questions 14, 15, 16 and 17 of each point.
// Kept: one line over `walk::each_point`, with a call and questions of its own; one function for the three would be `each_point` itself.
pub fn stress_point_questions(call: &StressCall) -> Result<(), Refusal>
    ensures { outcome result ≡ asked (each_point call.now.base (stress_asked call.now)) tt }
{
    walk::each_point(call.strain().base().num_points(), |p| {
        points::stress_questions_at(p, call)
    })
}
