// The faces of the reference square, which are the same in both families. It knows the definition alone.

ghost use Rattle.std.specs.Prelude.{◌≡◌};
ghost use Rattle.definition.specs.Elements.{face_reference_of};

use definition::FaceReference;

// The point of a face at s, from -1 to 1, and the direction d(xi, eta) / ds there. The faces run counter-clockwise: 0 is the bottom, 1 the right, 2 the top and 3
// the left; every greater number counts as 3.
// Kept: a face by its number, since the definition and the lists of an answer name it so, and every number has an answer.
pub fn face_reference(local_face: u8, s: f64) -> FaceReference
    ensures { result ≡ face_reference_of local_face s }
{
    match local_face {
        0 => FaceReference {
            xi: s,
            eta: -1.0,
            dxi: 1.0,
            deta: 0.0,
        },
        1 => FaceReference {
            xi: 1.0,
            eta: s,
            dxi: 0.0,
            deta: 1.0,
        },
        2 => FaceReference {
            xi: -s,
            eta: 1.0,
            dxi: -1.0,
            deta: 0.0,
        },
        _ => FaceReference {
            xi: -1.0,
            eta: -s,
            dxi: 0.0,
            deta: -1.0,
        },
    }
}
