// What the calls are given, each as one value: the query's call, and the three operators'. It knows the definition, the mesh and how a list is read: no question, no answer and no lent list.
// `element_indices` names the element of each point, and `reference_points` holds two reference coordinates a point. `points` holds two coordinates a point, in the mesh's unit of length.
// Any parts make a call, and every accessor has an answer for every number: whether the lists are whole is a question of the calls.
#![tactic(auto)]

ghost use Rattle.std.specs.Prelude.{◌≡◌, length};
ghost use Rattle.definition.specs.Mesh.{pair_count, pair_at};
ghost use Rattle.definition.specs.Operators.{element_at, reference_at, material_at};

use definition::{Point, Reference, Structural2dFormulation};
use materials::Materials;
use mesh::QuadMesh;
use std::marker::Model;

// ---- the query

// The mesh, the limit of steps of a search and the points.
#[derive(Drop)]
pub struct QueryCall<'a> {
    mesh: QuadMesh<'a>,
    max_iterations: usize,
    points: &'a [f64],
}

impl<'a> Model for QueryCall<'a> {
    ghost use Rattle.definition.specs.Query.{QueryCall as Value'};

    ghost Value = { Value' };

    ghost view = { λ q. record { mesh = q.mesh; iterations = q.max_iterations; points = q.points.now } };
}

impl<'a> QueryCall<'a> {
    pub fn new(mesh: QuadMesh<'a>, max_iterations: usize, points: &'a [f64]) -> QueryCall<'a>
        ensures { result ≡ record { mesh = mesh.entry; iterations = max_iterations; points = points.now } }
    {
        QueryCall {
            mesh,
            max_iterations,
            points,
        }
    }

    pub fn mesh(&self) -> &QuadMesh<'a>
        ensures { result.now ≡ self.now.mesh }
    {
        &self.mesh
    }

    pub fn max_iterations(&self) -> usize
        ensures { result ≡ self.now.iterations }
    {
        self.max_iterations
    }

    pub fn points(&self) -> &'a [f64]
        ensures { result.now ≡ self.now.points }
    {
        self.points
    }

    pub fn num_points(&self) -> usize
        ensures { result ≡ pair_count self.now.points }
    {
        self.points.len() / 2
    }

    pub fn point(&self, p: usize) -> Point
        ensures { result ≡ pair_at self.now.points p }
    {
        lists::pair_at(self.points, p)
    }
}

// ---- the operators

// The mesh, and the points by the element that each is in and the reference in it.
#[derive(Drop)]
pub struct InterpolationCall<'a> {
    mesh: QuadMesh<'a>,
    element_indices: &'a [usize],
    reference_points: &'a [f64],
}

impl<'a> Model for InterpolationCall<'a> {
    ghost use Rattle.definition.specs.Operators.{InterpolationCall as Value'};

    ghost Value = { Value' };

    ghost view = { λ c. record { mesh = c.mesh; element_indices = c.element_indices.now; reference_points = c.reference_points.now } };
}

impl<'a> InterpolationCall<'a> {
    pub fn new(
        mesh: QuadMesh<'a>,
        element_indices: &'a [usize],
        reference_points: &'a [f64],
    ) -> InterpolationCall<'a>
        ensures { result ≡ record { mesh = mesh.entry; element_indices = element_indices.now; reference_points = reference_points.now } }
    {
        InterpolationCall {
            mesh,
            element_indices,
            reference_points,
        }
    }

    pub fn mesh(&self) -> &QuadMesh<'a>
        ensures { result.now ≡ self.now.mesh }
    {
        &self.mesh
    }

    pub fn element_indices(&self) -> &'a [usize]
        ensures { result.now ≡ self.now.element_indices }
    {
        self.element_indices
    }

    pub fn reference_points(&self) -> &'a [f64]
        ensures { result.now ≡ self.now.reference_points }
    {
        self.reference_points
    }

    // The number of points, by the element numbers given.
    pub fn num_points(&self) -> usize
        ensures { result ≡ length self.now.element_indices }
    {
        self.element_indices.len()
    }

    pub fn element_at(&self, p: usize) -> usize
        ensures { result ≡ element_at self.now p }
    {
        lists::get_or(self.element_indices, p, 0)
    }

    pub fn reference_at(&self, p: usize) -> Reference
        ensures { result ≡ reference_at self.now p }
    {
        lists::reference_at(self.reference_points, p)
    }
}

// An interpolation's call, and which strains are meant.
#[derive(Drop)]
pub struct StrainCall<'a> {
    base: InterpolationCall<'a>,
    formulation: Structural2dFormulation,
}

impl<'a> Model for StrainCall<'a> {
    ghost use Rattle.definition.specs.Operators.{StrainCall as Value'};

    ghost Value = { Value' };

    ghost view = { λ c. record { base = c.base; formulation = c.formulation } };
}

impl<'a> StrainCall<'a> {
    pub fn new(base: InterpolationCall<'a>, formulation: Structural2dFormulation) -> StrainCall<'a>
        ensures { result ≡ record { base = base.entry; formulation = formulation } }
    {
        StrainCall { base, formulation }
    }

    pub fn base(&self) -> &InterpolationCall<'a>
        ensures { result.now ≡ self.now.base }
    {
        &self.base
    }

    pub fn formulation(&self) -> Structural2dFormulation
        ensures { result ≡ self.now.formulation }
    {
        self.formulation
    }
}

// A strain's call, and the materials.
#[derive(Drop)]
pub struct StressCall<'a> {
    strain: StrainCall<'a>,
    materials: Materials<'a>,
}

impl<'a> Model for StressCall<'a> {
    ghost use Rattle.definition.specs.Operators.{StressCall as Value'};

    ghost Value = { Value' };

    ghost view = { λ c. record { base = c.strain.base; formulation = c.strain.formulation; material_ids = c.materials.ids; material_table = c.materials.table; pairs_given = c.materials.pairs_given; pairs = c.materials.pairs } };
}

impl<'a> StressCall<'a> {
    pub fn new(strain: StrainCall<'a>, materials: Materials<'a>) -> StressCall<'a>
        ensures { let s = strain.entry in let m = materials.entry in result ≡ record { base = s.base; formulation = s.formulation; material_ids = m.ids; material_table = m.table; pairs_given = m.pairs_given; pairs = m.pairs } }
    {
        StressCall { strain, materials }
    }

    pub fn strain(&self) -> &StrainCall<'a>
        ensures { result.now ≡ record { base = self.now.base; formulation = self.now.formulation } }
    {
        &self.strain
    }

    pub fn materials(&self) -> &Materials<'a>
        ensures { result.now ≡ record { ids = self.now.material_ids; table = self.now.material_table; pairs_given = self.now.pairs_given; pairs = self.now.pairs } }
    {
        &self.materials
    }

    // The material number of the element that point p names.
    pub fn material_at(&self, p: usize) -> usize
        ensures { result ≡ material_at self.now p }
    {
        self.materials.id(self.strain.base.element_at(p))
    }
}
