// Family 9, the biquadratic element: its nodes are the corners in quad4's order, the midsides of faces 0 to 3 and the centre, and nothing else is known here. The
// Rust's quad9.rs.

ghost use Rattle.std.specs.Prelude.{◌≡◌};
ghost use Rattle.std.proofs.Common.{refl, rules};
ghost use Rattle.definition.specs.Elements.{nodes_of, lagrange_low, lagrange_mid, lagrange_high, slope_low, slope_mid, slope_high};

use crate::families::Family;
use definition::Reference;

// What the three polynomials that are 1 at -1, at 0 and at 1 come to at one x, or what their slopes do.
#[derive(Clone, Copy)]
struct Lagrange(f64, f64, f64);

#[tactic(auto, unfolding(std::specs::Prelude::from_bits, definition::specs::Elements::lagrange_low, definition::specs::Elements::lagrange_mid, definition::specs::Elements::lagrange_high))]
fn q2_lagrange_1d(x: f64) -> Lagrange
    ensures { (result.0 ≡ lagrange_low x) × (result.1 ≡ lagrange_mid x) × (result.2 ≡ lagrange_high x) }
{
    Lagrange(0.5 * x * (x - 1.0), 1.0 - x * x, 0.5 * x * (x + 1.0))
}

fn q2_lagrange_grad_1d(x: f64) -> Lagrange
    ensures { (result.0 ≡ slope_low x) × (result.1 ≡ slope_mid x) × (result.2 ≡ slope_high x) }
{
    Lagrange(x - 0.5, -2.0 * x, x + 0.5)
}

pub struct Quad9;

impl Family for Quad9 {
    ghost number = { 9 };

    ghost NODES = { 9 };

    const NODES: usize = 9;

    ghost nodes_are = { unfold nodes_of in refl };

    ghost nodes_fit = { Prim.search rules };

    // Node after node, the polynomial of its xi times the one of its eta.
    #[tactic(auto, unfolding(definition::specs::Elements::shape_of, definition::specs::Elements::shape9))]
    fn shape(r: Reference) -> [f64; 9] {
        let Reference { xi, eta } = r;
        let Lagrange(lx0, lx1, lx2) = q2_lagrange_1d(xi);
        let Lagrange(ly0, ly1, ly2) = q2_lagrange_1d(eta);
        [
            lx0 * ly0,
            lx2 * ly0,
            lx2 * ly2,
            lx0 * ly2,
            lx1 * ly0,
            lx2 * ly1,
            lx1 * ly2,
            lx0 * ly1,
            lx1 * ly1,
        ]
    }

    // By xi, then by eta, node after node: the slope of one polynomial times the other.
    #[tactic(auto, unfolding(definition::specs::Elements::grad_ref_of, definition::specs::Elements::grad_ref9))]
    fn grad_ref(r: Reference) -> [f64; 18] {
        let Reference { xi, eta } = r;
        let Lagrange(lx0, lx1, lx2) = q2_lagrange_1d(xi);
        let Lagrange(ly0, ly1, ly2) = q2_lagrange_1d(eta);
        let Lagrange(dlx0, dlx1, dlx2) = q2_lagrange_grad_1d(xi);
        let Lagrange(dly0, dly1, dly2) = q2_lagrange_grad_1d(eta);
        [
            dlx0 * ly0,
            lx0 * dly0,
            dlx2 * ly0,
            lx2 * dly0,
            dlx2 * ly2,
            lx2 * dly2,
            dlx0 * ly2,
            lx0 * dly2,
            dlx1 * ly0,
            lx1 * dly0,
            dlx2 * ly1,
            lx2 * dly1,
            dlx1 * ly2,
            lx1 * dly2,
            dlx0 * ly1,
            lx0 * dly1,
            dlx1 * ly1,
            lx1 * dly1,
        ]
    }
}
