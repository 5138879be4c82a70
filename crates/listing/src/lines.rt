// From a query's answer and its twelve lists to the lines of its listing: `put_answer`.
// It knows the definition and the text of a line; nothing of a mesh, of a query's work nor of a job.
// What a list has no place for reads as 0 or NaN, so the call asks nothing of the lists' lengths.
ghost use Rattle.std.specs.Prelude.{◌≡◌};
ghost use Rattle.answers.specs.Lent.{query_lists};
ghost use Rattle.listing.specs.Page.{Puts};
ghost use Rattle.listing.specs.Answers.{answer_in, answer_listing, numbered_listing};

use crate::Page;
use answers::QueryLists;
use definition::{
    ElementProjection, FaceProjection, NodeProjection, NumberedRefusal, PointAnswer, QueryCounts,
    Refusal,
};

// The answer of point p in the lists.
fn answer_in(lists: &QueryLists, p: usize) -> PointAnswer
    ensures { result ≡ answer_in (query_lists lists.now) p }
{
    PointAnswer {
        node: NodeProjection {
            node_index: lists::get_or(lists.nearest_node_indices, p, 0),
            point: lists::pair_at(lists.nearest_node_points, p),
            distance: lists::value_at(lists.nearest_node_distances, p),
        },
        element: ElementProjection {
            element_index: lists::get_or(lists.nearest_element_indices, p, 0),
            reference: lists::reference_at(lists.nearest_element_reference_points, p),
            point: lists::pair_at(lists.nearest_element_points, p),
            distance: lists::value_at(lists.nearest_element_distances, p),
        },
        face: FaceProjection {
            element_index: lists::get_or(lists.nearest_face_element_indices, p, 0),
            local_face: lists::get_or(lists.nearest_face_local_faces, p, 0),
            s: lists::value_at(lists.nearest_face_reference_coordinates, p),
            point: lists::pair_at(lists.nearest_face_points, p),
            distance: lists::value_at(lists.nearest_face_distances, p),
        },
    }
}

impl Page<'_> {
    // The listing of a query's answer and lists. Of the counted points those are listed that the lists have a place for.
    // Kept: `put_byte` says why it prints by hand.
    pub fn put_answer(&mut self, answer: Result<QueryCounts, Refusal>, lists: &QueryLists)
        ensures { Puts self.old self.new (answer_listing answer (query_lists lists.now)) }
    {
        match answer {
            Ok(counts) => {
                self.put_counts(counts);
                for p in 0..counts.points.min(lists.nearest_node_indices.len()) {
                    self.put_point(p, answer_in(lists, p));
                }
            }
            Err(refusal) => self.put_refusal(refusal.question.number(), refusal.place),
        }
    }

    // The listing of an answer of which a refusal may have any number, and of its lists.
    // Kept: `put_byte` says why it prints by hand.
    pub fn put_numbered_answer(
        &mut self,
        answer: Result<QueryCounts, NumberedRefusal>,
        lists: &QueryLists,
    )
        ensures { Puts self.old self.new (numbered_listing answer (query_lists lists.now)) }
    {
        match answer {
            Ok(counts) => self.put_answer(Ok(counts), lists),
            Err(refusal) => self.put_refusal(refusal.question, refusal.place),
        }
    }
}
