// The two families of elements on the reference square: how many nodes they have, their shape numbers and gradients, and the faces.
// It knows the definition alone, and nothing of a mesh: no coordinates and no node numbers.
// `Family` is what generic code knows of a family, which is a type there, `Quad4` or `Quad9`. At the door a family is a number: 9, and every other number counts
// as 4. What a list holds past its family's nodes is 0.
#![tactic(auto)]

mod faces;
mod families;
mod quad4;
mod quad9;

pub use faces::face_reference;
pub use families::{Family, grad_ref, is_family, nodes_per_element, shape};
pub use quad4::Quad4;
pub use quad9::Quad9;
