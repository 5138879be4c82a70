// Where a target is nearest on one element and on one of its faces: both searches, and what they find where no step is allowed.
// It knows the definition, an element's map and its faces, the floats and the root; nothing of a mesh: no node numbers, no choice among elements.
#![tactic(auto)]

mod element_search;
mod face_search;
mod places;
mod searching;
mod steps;

pub use element_search::{closest_reference_point, element_best};
pub use face_search::{closest_face_point, face_best};
pub use places::{ElementBests, bests, seed_bests};
pub use searching::nearer;
