// The gradients of the shape numbers by x and y. The Rust's mapping.rs, of its second half.
// It knows an inverse Jacobian and lists of gradients, and nothing of coordinates. Gradients stand two a node; the places past the family's nodes are not read.

ghost use Rattle.std.specs.Prelude.{◌≡◌};
ghost use Rattle.definition.specs.Mapping.{grad_phys};

use definition::InverseJacobian;

// The gradients by x, then by y, node after node, from those by xi and eta. The places past the family's nodes hold 0.
#[tactic(auto, unfolding(std::specs::Prelude::from_bits, definition::specs::Mapping::grad_phys, definition::specs::Lists::each, definition::specs::Lists::over))]
pub fn grad_phys(family: usize, grad_reference: &[f64; 18], inv_jac: InverseJacobian) -> [f64; 18]
    ensures { result ≡ grad_phys family grad_reference.now inv_jac }
{
    let InverseJacobian {
        xix,
        xiy,
        etax,
        etay,
    } = inv_jac;
    let mut out = [0.0; 18];
    for i in 0..elements::nodes_per_element(family) {
        let k = 2 * i;
        let dxi = grad_reference[k];
        let deta = grad_reference[k + 1];
        out[k] = xix * dxi + etax * deta;
        out[k + 1] = xiy * dxi + etay * deta;
    }
    out
}
