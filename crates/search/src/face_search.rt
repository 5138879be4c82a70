// The face search: `closest_face_point`.
// It knows the definition, an element's map and its faces, and the root; nothing of a mesh.

ghost use Rattle.std.specs.Prelude.{◌≡◌, true};
ghost use Rattle.definition.specs.Search.{tangent_square, next_s, face_step, face_point, face_best, closest_face_point};

use crate::searching::Search;
use crate::{searching, steps};
use definition::{Best, FaceProjection, GatheredElement, Point, Step};

// 2^-52: no step is made on a face whose squared tangent is at most this, and a step of at most this is the last.
const EPSILON: f64 = 2.220446049250313e-16;

// Where a face begins, its middle and where it ends.
pub const LOW: f64 = -1.0;

pub const MIDDLE: f64 = 0.0;

pub const HIGH: f64 = 1.0;

const SEEDS: [f64; 3] = [LOW, MIDDLE, HIGH];

// The coordinate after a step from s, along the tangent d; (u, v) is the residual and square the squared tangent.
#[tactic(auto, unfolding(definition::specs::Search::next_s))]
#[inline(always)]
fn next_s(d: Point, square: f64, u: f64, v: f64, s: f64) -> f64
    requires { square ≡ tangent_square d }
    ensures { result ≡ next_s d u v s }
{
    binary64::clamp(s - (d.x * u + d.y * v) / square)
}

// The coordinates of a face of an element, and a target.
#[derive(Clone, Copy)]
struct FaceSearch<'a> {
    element: &'a GatheredElement,
    local_face: u8,
    target: Point,
}

impl<'a> Search for FaceSearch<'a> {
    type At = f64;

    ghost point_of = { λ f. face_point f.element.now f.local_face };

    ghost target = { λ f. f.target };

    ghost step = { λ f. face_step f.element.now f.local_face f.target };

    #[tactic(auto, unfolding(definition::specs::Search::face_point))]
    #[inline(always)]
    fn point(&self, s: f64) -> Point {
        let f = elements::face_reference(self.local_face, s);
        mapping::point_at(self.element, f.into())
    }

    #[inline(always)]
    fn target(&self) -> Point {
        self.target
    }

    #[tactic(auto, unfolding(std::specs::Prelude::from_bits, definition::specs::Search::face_step, definition::specs::Search::ended_face, definition::specs::Search::tangent_square))]
    #[inline(always)]
    fn step(&self, s: f64) -> Step<f64> {
        let f = elements::face_reference(self.local_face, s);
        let g = mapping::frame_at(self.element, f.into());
        let d = mapping::face_tangent(g.jacobian, f);
        let square = d.x * d.x + d.y * d.y;
        if square <= EPSILON {
            return Step::Stay;
        }
        let Point { x, y } = self.target;
        let next = next_s(d, square, g.point.x - x, g.point.y - y, s);
        if steps::within(next - s, EPSILON) {
            Step::Last(next)
        } else {
            Step::More(next)
        }
    }

    #[inline(always)]
    fn is_same(a: f64, b: f64) -> bool
        ensures { result ≡ true → a ≡ b }
    {
        binary64::same(a, b)
    }
}

// The search of a face whose root is left to the caller. Not inlined, as that of an element.
// Kept: one search's call, with seeds of its own; what the two share is `searching::best`. An element and a target are two values of the definition, of which the search is made here; a caller that made it would know what a step is.
#[inline(never)]
#[tactic(auto, unfolding(std::specs::Prelude::from_bits, definition::specs::Search::face_best, definition::specs::Search::face_seeds))]
pub fn face_best(e: &GatheredElement, local_face: u8, target: Point, limit: usize) -> Best<f64>
    ensures { result ≡ face_best e.now local_face target limit }
{
    let search = FaceSearch {
        element: e,
        local_face,
        target,
    };
    searching::best(&search, limit, MIDDLE, &SEEDS)
}

// Where the target is nearest on face `local_face` of element `element_index`, by at most `max_iterations` steps a seed.
// Kept: a projection has fields of its own, which a generic function would still need named, and is no plainer; an element and a target are two values of the definition.
#[tactic(auto, unfolding(definition::specs::Search::closest_face_point))]
pub fn closest_face_point(
    e: &GatheredElement,
    element_index: usize,
    local_face: u8,
    target: Point,
    max_iterations: usize,
) -> FaceProjection
    ensures { result ≡ closest_face_point e.now element_index local_face target max_iterations }
{
    let Best {
        at: s,
        point,
        square,
    } = face_best(e, local_face, target, max_iterations);
    FaceProjection {
        element_index,
        local_face,
        s,
        point,
        distance: root::root(square),
    }
}
