// The questions on the lists of a mesh, which a query and the operators ask. It knows the definition, the families and the mesh: nothing of a call.
#![tactic(auto)]

ghost use Rattle.std.specs.Prelude.{◌≡◌, [], ◌∷◌};
ghost use Rattle.definition.specs.Questions.{asked, outcome, family_known, nodes_whole, elements_whole, node_numbers};

use definition::{QuestionKind, Refusal};
use mesh::QuadMesh;

// Questions 1, 2 and 3, each at place 0: is the family 4 or 9, are there whole nodes and whole elements, at most 1,000,000 of each?
#[tactic(auto, unfolding(definition::specs::Questions::asked))]
pub fn mesh_questions(mesh: &QuadMesh) -> Result<(), Refusal>
    ensures { outcome result ≡ asked (family_known mesh.now ∷ nodes_whole mesh.now ∷ elements_whole mesh.now ∷ []) tt }
{
    let known = elements::is_family(mesh.family());
    asking::ask(known, QuestionKind::FamilyKnown, 0)?;
    let whole = asking::whole(2, mesh.nodes_rz().len());
    asking::ask(whole, QuestionKind::NodesWhole, 0)?;
    let whole = asking::whole(mesh.nodes_per_element(), mesh.elements().len());
    asking::ask(whole, QuestionKind::ElementsWhole, 0)
}

// Question 8, at the first element that is answered no: is every node number below the node count? `validate_connectivity` of the Rust.
#[tactic(auto, using(crate::proofs::NodeNumbers::one_more, crate::proofs::NodeNumbers::all_known, crate::proofs::NodeNumbers::first_unknown), unfolding(definition::specs::Questions::asked))]
pub fn connectivity_question(mesh: &QuadMesh) -> Result<(), Refusal>
    ensures { outcome result ≡ asked (node_numbers mesh.now) tt }
{
    let node_count = mesh.num_nodes();
    let mut answer = Ok(());
    // Kept: document 01's form (docs/DECISIONS.md): the walk over elements and their nodes is left from the inner loop, by its label, at the first bad number.
    'walk: for element_index in 0..mesh.num_elements() {
        for node in mesh.element_nodes(element_index) {
            if node_count <= *node as usize {
                answer = asking::ask(false, QuestionKind::NodeNumbers, element_index);
                break 'walk;
            }
        }
    }
    answer
}
