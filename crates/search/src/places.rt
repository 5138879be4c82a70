// What the searches of an element and its faces find together. Where no step is allowed the places of the seeds are enough.
// It knows the definition and both searches; nothing of what a step is.

ghost use Rattle.std.specs.Prelude.{◌≡◌, [], ◌∷◌, fold, map};
ghost use Rattle.definition.specs.Binary64.{plus0, one, minus_one};
ghost use Rattle.definition.specs.Mapping.{point_at};
ghost use Rattle.definition.specs.Search.{placed, nearer, element_seeds, element_best, face_best};
ghost use Rattle.search.specs.Places.{on_face};

use crate::element_search::{ElementSearch, SEEDS, element_best};
use crate::face_search::{HIGH, LOW, MIDDLE, face_best};
use crate::searching;
use definition::{Best, GatheredElement, Point, Reference};

// What the searches of an element and of its four faces find.
#[derive(Clone, Copy)]
pub struct ElementBests {
    pub element: Best<Reference>,
    pub faces: [Best<f64>; 4],
}

// The places of the seeds of an element.
// Kept: nine lines for `SEEDS.map(|r| searching::place(search, r))`, by which a query at limit 0 takes 1.10 times as long as the Rust in family 4 and 0.79 times in family 9, in place of 0.46 and 0.36.
#[tactic(auto, unfolding(std::specs::Prelude::from_bits, definition::specs::Search::element_seeds))]
#[inline(always)]
fn seed_places(search: &ElementSearch) -> [Best<Reference>; 9]
    ensures { result ≡ map (placed (point_at search.now.element.now) search.now.target) element_seeds }
{
    [
        searching::place(search, SEEDS[0]),
        searching::place(search, SEEDS[1]),
        searching::place(search, SEEDS[2]),
        searching::place(search, SEEDS[3]),
        searching::place(search, SEEDS[4]),
        searching::place(search, SEEDS[5]),
        searching::place(search, SEEDS[6]),
        searching::place(search, SEEDS[7]),
        searching::place(search, SEEDS[8]),
    ]
}

// A place of the element, at the coordinate s of a face.
#[inline(always)]
fn on_face(s: f64, place: Best<Reference>) -> Best<f64>
    ensures { result ≡ on_face s place }
{
    Best {
        at: s,
        point: place.point,
        square: place.square,
    }
}

// The face search over the places of a face's middle and ends.
#[tactic(auto, unfolding(std::specs::Prelude::from_bits))]
#[inline(always)]
fn nearest_on_face(
    middle: Best<Reference>,
    low: Best<Reference>,
    high: Best<Reference>,
) -> Best<f64>
    ensures { result ≡ fold nearer (on_face plus0 middle) (on_face minus_one low ∷ on_face plus0 middle ∷ on_face one high ∷ []) }
{
    let middle = on_face(MIDDLE, middle);
    searching::nearest(middle, &[on_face(LOW, low), middle, on_face(HIGH, high)])
}

// The searches of an element and its faces, without a step. The ends and middles of the faces are among the seeds of the element, and are worked out once; only the middles of faces 2 and 3 have a -0, where N has zeros of the other sign.
// Kept: an element and a target are two values of the definition, of which the search is made here; a caller that made it would know what a step is.
pub fn seed_bests(e: &GatheredElement, target: Point) -> ElementBests
    ensures element { result.element ≡ element_best e.now target 0 }
    ensures faces { result.faces ≡ face_best e.now 0 target 0 ∷ face_best e.now 1 target 0 ∷ face_best e.now 2 target 0 ∷ face_best e.now 3 target 0 ∷ [] }
{
    let search = ElementSearch { element: e, target };
    let places = seed_places(&search);
    let [_, corner0, corner1, corner2, corner3, bottom, right, _, _] = places;
    let top = searching::place(&search, Reference { xi: -0.0, eta: 1.0 });
    let left = searching::place(
        &search,
        Reference {
            xi: -1.0,
            eta: -0.0,
        },
    );
    ElementBests {
        element: searching::nearest(places[0], &places),
        faces: [
            nearest_on_face(bottom, corner0, corner1),
            nearest_on_face(right, corner1, corner2),
            nearest_on_face(top, corner2, corner3),
            nearest_on_face(left, corner3, corner0),
        ],
    }
}

// The searches of an element and its faces, by at most `limit` steps a seed.
// Kept: an element and a target are two values of the definition, of which the calls below make their searches; a caller that made them would know what a step is.
pub fn bests(e: &GatheredElement, target: Point, limit: usize) -> ElementBests
    ensures element { result.element ≡ element_best e.now target limit }
    ensures faces { result.faces ≡ face_best e.now 0 target limit ∷ face_best e.now 1 target limit ∷ face_best e.now 2 target limit ∷ face_best e.now 3 target limit ∷ [] }
{
    if limit == 0 {
        return seed_bests(e, target);
    }
    ElementBests {
        element: element_best(e, target, limit),
        faces: [
            face_best(e, 0, target, limit),
            face_best(e, 1, target, limit),
            face_best(e, 2, target, limit),
            face_best(e, 3, target, limit),
        ],
    }
}
