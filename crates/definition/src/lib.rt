// The plain types that the crates share. specs/ is the written definition and proofs/ what holds it; the functions here give a question's number, a refusal by it, and the reference of a face's place.
#![tactic(auto)]

ghost use Rattle.std.specs.Prelude.{◌≡◌};
ghost use Rattle.definition.specs.Questions.{number_of};

// A point of the plane of the mesh, (r, z) or (x, y), in the mesh's unit of length. The Rust's `[F; 2]`.
#[derive(Clone, Copy)]
pub struct Point {
    pub x: f64,
    pub y: f64,
}

// A point of the reference square [-1, 1] by [-1, 1].
#[derive(Clone, Copy)]
pub struct Reference {
    pub xi: f64,
    pub eta: f64,
}

// A point of a face in reference coordinates, and the direction d(xi, eta) / ds of the face there.
#[derive(Clone, Copy)]
pub struct FaceReference {
    pub xi: f64,
    pub eta: f64,
    pub dxi: f64,
    pub deta: f64,
}

impl From<FaceReference> for Reference {
    ghost from_gives = { λ f r. r ≡ record { xi = f.xi; eta = f.eta } };

    // Kept: each conversion takes two fields of its own types.
    fn from(f: FaceReference) -> Reference {
        Reference {
            xi: f.xi,
            eta: f.eta,
        }
    }
}

// The Jacobian: xxi is dx / dxi, xeta is dx / deta, yxi is dy / dxi, yeta is dy / deta. The Rust's `jac[0][0]`, `jac[0][1]`, `jac[1][0]`, `jac[1][1]`.
#[derive(Clone, Copy)]
pub struct JacobianMatrix {
    pub xxi: f64,
    pub xeta: f64,
    pub yxi: f64,
    pub yeta: f64,
}

// The inverse of a Jacobian: xix is dxi / dx, xiy is dxi / dy, etax is deta / dx, etay is deta / dy. The Rust's `inv_jac`, row by row.
#[derive(Clone, Copy)]
pub struct InverseJacobian {
    pub xix: f64,
    pub xiy: f64,
    pub etax: f64,
    pub etay: f64,
}

// A gathered element: its number of nodes, 4 or 9, and their coordinates, two a node. The places past the nodes hold 0 and are not read.
// Kept: a rule of the project, and fixed memory: the gathered element is a count beside an array of 18.
#[derive(Clone, Copy)]
pub struct GatheredElement {
    pub count: usize,
    pub xy: [f64; 18],
}

// The nearest node of a point: its number, where it lies and how far.
#[derive(Clone, Copy)]
pub struct NodeProjection {
    pub node_index: usize,
    pub point: Point,
    pub distance: f64,
}

// Where a point is nearest on one element: the reference, the physical point and the distance, kept together.
#[derive(Clone, Copy)]
pub struct ElementProjection {
    pub element_index: usize,
    pub reference: Reference,
    pub point: Point,
    pub distance: f64,
}

// Where a point is nearest on one face of one element, at the face's coordinate s.
#[derive(Clone, Copy)]
pub struct FaceProjection {
    pub element_index: usize,
    pub local_face: u8,
    pub s: f64,
    pub point: Point,
    pub distance: f64,
}

// The twelve values of a point. The Rust's `QuadMeshQueryResult`, at one point.
#[derive(Clone, Copy)]
pub struct PointAnswer {
    pub node: NodeProjection,
    pub element: ElementProjection,
    pub face: FaceProjection,
}

// Which strains are meant: axisymmetric, or plane strain with its thickness.
#[derive(Clone, Copy)]
pub enum Structural2dFormulation {
    Axisymmetric,
    PlaneStrain { thickness: f64 },
}

// What a step of a search comes to: none is made, or it is the last one, or more may follow.
#[derive(Clone, Copy)]
pub enum Step<A> {
    Stay,
    Last(A),
    More(A),
}

// A place of a search, its physical point and the point's squared distance from the target.
#[derive(Clone, Copy)]
pub struct Best<A> {
    pub at: A,
    pub point: Point,
    pub square: f64,
}

// The questions that a call asks, by what has to hold.
#[derive(Clone, Copy, Debug, PartialEq, Eq)]
pub enum QuestionKind {
    FamilyKnown = 1,
    NodesWhole = 2,
    ElementsWhole = 3,
    IterationsFew = 4,
    PointsWhole = 5,
    MaterialsWhole = 6,
    Room = 7,
    NodeNumbers = 8,
    SomeNode = 9,
    SomeElement = 10,
    NumbersMatch = 11,
    MaterialsMatch = 12,
    PairsMatch = 13,
    ElementKnown = 14,
    MaterialKnown = 15,
    NotInverted = 16,
    OffAxis = 17,
    MarkKnown = 18,
    HeadFirst = 19,
    BodyWhole = 20,
    WithinLimits = 21,
}

impl QuestionKind {
    // The number that a refusal is known by outside.
    pub fn number(self) -> u8
        ensures { result ≡ number_of self }
    {
        self as u8
    }
}

// The first question that was answered no, and its place.
// Kept: the calls' own refusal names one of the 21 questions, and so no number that they never answer. One struct with the question's type as a parameter would stand with it in every signature, and is no plainer.
#[derive(Clone, Copy, Debug, PartialEq, Eq)]
pub struct Refusal {
    pub question: QuestionKind,
    pub place: usize,
}

// A refusal by a question's number, whichever: a caller's own questions may have numbers that no question here has.
// Kept: a number, where one of the 21 questions alone would ask more of a caller.
#[derive(Clone, Copy, Debug, PartialEq, Eq)]
pub struct NumberedRefusal {
    pub question: u8,
    pub place: usize,
}

impl From<Refusal> for NumberedRefusal {
    ghost from_gives = { λ r n. n ≡ record { question = number_of r.question; place = r.place } };

    // Kept: each conversion takes two fields of its own types.
    fn from(refusal: Refusal) -> NumberedRefusal {
        NumberedRefusal {
            question: refusal.question.number(),
            place: refusal.place,
        }
    }
}

// The kinds of records of a job file, by their marks: QF, QN, QE, QP, and any other.
#[derive(Clone, Copy, PartialEq, Eq)]
pub enum Mark {
    Head,
    Node,
    Element,
    Point,
    Unknown,
}

// The numbers of an accepted query: how many points it answered, how many elements repeat a node and how many points lie inside.
#[derive(Clone, Copy)]
pub struct QueryCounts {
    pub points: usize,
    pub repeated: usize,
    pub inside: usize,
}

// The numbers of an accepted operator: its rows, its columns and its triplets.
#[derive(Clone, Copy)]
pub struct OperatorCounts {
    pub rows: usize,
    pub columns: usize,
    pub triplets: usize,
}
