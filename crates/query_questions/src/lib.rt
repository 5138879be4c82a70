// The questions of a query: those on its mesh, and between and after them its own. It knows the definition, the call and the questions on a mesh: no search, no lent output and no job file.
#![tactic(auto)]

ghost use Rattle.std.specs.Prelude.{◌≡◌};
ghost use Rattle.definition.specs.Mesh.{pair_count};
ghost use Rattle.definition.specs.Questions.{asked, outcome};
ghost use Rattle.definition.specs.Query.{QueryLists, query_room, query_questions};

use calls::QueryCall;
use definition::{QuestionKind, Refusal};

// The questions of a query: 1, 2, 3, 4, 5, 7, 8, 9 and 10. `room` is the answer of question 7, for the lists lent to it.
#[tactic(auto, using(definition::proofs::Passing::asked_append), unfolding(definition::specs::Questions::asked, definition::specs::Query::query_questions))]
pub fn query_questions(call: &QueryCall, room: bool) -> Result<(), Refusal>
    ensures { (lent : QueryLists) → room ≡ query_room lent (pair_count call.now.points) →
        outcome result ≡ asked (query_questions call.now lent) tt }
{
    let mesh = call.mesh();
    mesh_questions::mesh_questions(mesh)?;
    let few = call.max_iterations() <= 1000;
    asking::ask(few, QuestionKind::IterationsFew, 0)?;
    let whole = asking::whole(2, call.points().len());
    asking::ask(whole, QuestionKind::PointsWhole, 0)?;
    asking::ask(room, QuestionKind::Room, 0)?;
    mesh_questions::connectivity_question(mesh)?;
    asking::ask(0 < mesh.num_nodes(), QuestionKind::SomeNode, 0)?;
    asking::ask(0 < mesh.num_elements(), QuestionKind::SomeElement, 0)
}
