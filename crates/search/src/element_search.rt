// The element search: `closest_reference_point`.
// It knows the definition, an element's map and the root; nothing of a face or of a mesh.

ghost use Rattle.std.specs.Prelude.{◌≡◌, true};
ghost use Rattle.definition.specs.Mapping.{point_at};
ghost use Rattle.definition.specs.Search.{hessian00, hessian01, hessian10, hessian11, hessian_det, next_reference, element_step, element_best, closest_reference_point};

use crate::searching::Search;
use crate::{searching, steps};
use definition::{
    Best, ElementProjection, GatheredElement, JacobianMatrix, Point, Reference, Step,
};

// 2^-46: no step is made where the determinant of J transposed times J is at most this in magnitude.
const SINGULAR: f64 = 1.4210854715202004e-14;

// 2^-104: a step whose squared length is at most this is the last.
const SHORT_SQUARE: f64 = 4.930380657631324e-32;

// The first place.
const CENTRE: Reference = Reference { xi: 0.0, eta: 0.0 };

// The seeds: centre, corners, midsides.
pub const SEEDS: [Reference; 9] = [
    CENTRE,
    Reference {
        xi: -1.0,
        eta: -1.0,
    },
    Reference { xi: 1.0, eta: -1.0 },
    Reference { xi: 1.0, eta: 1.0 },
    Reference { xi: -1.0, eta: 1.0 },
    Reference { xi: 0.0, eta: -1.0 },
    Reference { xi: 1.0, eta: 0.0 },
    Reference { xi: 0.0, eta: 1.0 },
    Reference { xi: -1.0, eta: 0.0 },
];

// J transposed times J, row by row.
#[derive(Clone, Copy)]
struct Hessian {
    jacobian: JacobianMatrix,
    h00: f64,
    h01: f64,
    h10: f64,
    h11: f64,
    ghost entries: { (h00 ≡ hessian00 jacobian) × (h01 ≡ hessian01 jacobian) × (h10 ≡ hessian10 jacobian) × (h11 ≡ hessian11 jacobian) },
}

impl Hessian {
    #[tactic(auto, unfolding(definition::specs::Search::hessian00, definition::specs::Search::hessian01, definition::specs::Search::hessian10, definition::specs::Search::hessian11))]
    #[inline(always)]
    fn new(jacobian: JacobianMatrix) -> Hessian
        ensures { result.jacobian ≡ jacobian }
    {
        let JacobianMatrix {
            xxi,
            xeta,
            yxi,
            yeta,
        } = jacobian;
        Hessian {
            jacobian,
            h00: xxi * xxi + yxi * yxi,
            h01: xxi * xeta + yxi * yeta,
            h10: xeta * xxi + yeta * yxi,
            h11: xeta * xeta + yeta * yeta,
        }
    }

    // The determinant.
    #[tactic(auto, unfolding(definition::specs::Search::hessian_det))]
    #[inline(always)]
    fn det(self) -> f64
        ensures { result ≡ hessian_det self.jacobian }
    {
        self.h00 * self.h11 - self.h01 * self.h10
    }

    // The reference after a step from r; (u, v) is the residual.
    #[tactic(auto, unfolding(definition::specs::Search::next_reference, definition::specs::Search::gradient_xi, definition::specs::Search::gradient_eta))]
    #[inline(always)]
    fn next_reference(self, u: f64, v: f64, r: Reference) -> Reference
        ensures { result ≡ next_reference self.jacobian u v r }
    {
        let JacobianMatrix {
            xxi,
            xeta,
            yxi,
            yeta,
        } = self.jacobian;
        let gxi = xxi * u + yxi * v;
        let geta = xeta * u + yeta * v;
        let det = self.det();
        let xi = binary64::clamp(r.xi - (gxi * self.h11 - self.h01 * geta) / det);
        let eta = binary64::clamp(r.eta - (self.h00 * geta - gxi * self.h10) / det);
        Reference { xi, eta }
    }
}

// The references of an element, and a target.
#[derive(Clone, Copy)]
pub struct ElementSearch<'a> {
    pub element: &'a GatheredElement,
    pub target: Point,
}

impl<'a> Search for ElementSearch<'a> {
    type At = Reference;

    ghost point_of = { λ s. point_at s.element.now };

    ghost target = { λ s. s.target };

    ghost step = { λ s. element_step s.element.now s.target };

    #[inline(always)]
    fn point(&self, at: Reference) -> Point {
        mapping::point_at(self.element, at)
    }

    #[inline(always)]
    fn target(&self) -> Point {
        self.target
    }

    #[tactic(auto, unfolding(std::specs::Prelude::from_bits, definition::specs::Search::element_step, definition::specs::Search::ended_element))]
    #[inline(always)]
    fn step(&self, at: Reference) -> Step<Reference> {
        let f = mapping::frame_at(self.element, at);
        let hessian = Hessian::new(f.jacobian);
        if steps::within(hessian.det(), SINGULAR) {
            return Step::Stay;
        }
        let Point { x, y } = self.target;
        let next = hessian.next_reference(f.point.x - x, f.point.y - y, at);
        if binary64::squared_distance(at.xi, at.eta, next.xi, next.eta) <= SHORT_SQUARE {
            Step::Last(next)
        } else {
            Step::More(next)
        }
    }

    #[inline(always)]
    fn is_same(a: Reference, b: Reference) -> bool
        ensures { result ≡ true → a ≡ b }
    {
        binary64::same(a.xi, b.xi) && binary64::same(a.eta, b.eta)
    }
}

// The search of an element whose root is left to the caller, for whom the squared distance may be enough. Not inlined: in a larger function the step has fewer registers.
// Kept: one search's call, with seeds of its own; what the two share is `searching::best`. An element and a target are two values of the definition, of which the search is made here; a caller that made it would know what a step is.
#[inline(never)]
#[tactic(auto, unfolding(std::specs::Prelude::from_bits, definition::specs::Search::element_best, definition::specs::Search::element_seeds))]
pub fn element_best(e: &GatheredElement, target: Point, limit: usize) -> Best<Reference>
    ensures { result ≡ element_best e.now target limit }
{
    let search = ElementSearch { element: e, target };
    searching::best(&search, limit, CENTRE, &SEEDS)
}

// Where the target is nearest on element `element_index`, by at most `max_iterations` steps a seed.
// Kept: a projection has fields of its own, which a generic function would still need named, and is no plainer; an element and a target are two values of the definition.
#[tactic(auto, unfolding(definition::specs::Search::closest_reference_point))]
pub fn closest_reference_point(
    e: &GatheredElement,
    element_index: usize,
    target: Point,
    max_iterations: usize,
) -> ElementProjection
    ensures { result ≡ closest_reference_point e.now element_index target max_iterations }
{
    let Best {
        at: reference,
        point,
        square,
    } = element_best(e, target, max_iterations);
    ElementProjection {
        element_index,
        reference,
        point,
        distance: root::root(square),
    }
}
