// The twelve values of one point: the nearest node, and the choice among all elements and faces.
// It knows the definition, the searches, the root and the mesh; nothing of lent lists.
#![tactic(auto)]

mod near;
mod nearest;
mod nodes;

pub use nearest::answer_point;
pub use nodes::nearest_node_projection;
