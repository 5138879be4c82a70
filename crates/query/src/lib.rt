// The query: the nearest node, element and face of each point, in twelve lent lists.
// It knows the call, the lent lists, the questions and the answer of one point; nothing of a job file.
#![tactic(auto)]

ghost use Rattle.std.specs.Prelude.{◌≡◌};
ghost use Rattle.definition.specs.Lists.{count_of};
ghost use Rattle.definition.specs.Query.{QueryPromise};
ghost use Rattle.answers.specs.Lent.{query_lists, SameLists};
ghost use Rattle.query.specs.Filled.{is_inside, filled};

use answers::QueryLists;
use calls::QueryCall;
use definition::{QueryCounts, Refusal};

// The answers of the first n points in their places, and how many of these points lie inside, which is where the element distance is 0. No question is asked here: there is an answer for every list and every number.
// Kept: that the lists are the same ones is a fact of two values, which no field and no model of one value can hold: a record over the two is the plainest.
#[tactic(auto, unfolding(crate::specs::Filled::filled, definition::specs::Lists::count_of))]
pub fn answer_points(call: &QueryCall, n: usize, lent: &mut QueryLists) -> usize
    ensures same { SameLists lent.old lent.new }
    ensures inside { result ≡ count_of (is_inside call.now) n }
    ensures value { query_lists lent.new ≡ filled call.now n (query_lists lent.old) }
{
    let mut inside = 0;
    for p in 0..n {
        let answer = choice::answer_point(call.mesh(), call.point(p), call.max_iterations());
        lent.store(p, answer);
        inside += usize::from(answer.element.distance == 0.0);
    }
    inside
}

// The query: the nearest node, element and face of each of n points, written to the first n places of each list, the first 2n of a list of coordinate pairs.
// A refusal leaves every list as it was. The limit of steps of a search is at most 1,000.
// Kept: that the lists are the same ones is a fact of two values, which no field and no model of one value can hold: a record over the two is the plainest.
#[tactic(auto, using(crate::proofs::Promised::refusal_kept, crate::proofs::Promised::counts_kept))]
pub fn query_quad_mesh(call: &QueryCall, lent: &mut QueryLists) -> Result<QueryCounts, Refusal>
    ensures same { SameLists lent.old lent.new }
    ensures promise { QueryPromise call.now (query_lists lent.old) result (query_lists lent.new) }
{
    let points = call.num_points();
    query_questions::query_questions(call, lent.has_room(points))?;
    let inside = answer_points(call, points, lent);
    Ok(QueryCounts {
        points,
        repeated: call.mesh().repeated_elements(),
        inside,
    })
}
