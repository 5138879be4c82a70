// From a job's bytes to its listing's bytes: `answer_job`. It knows the definition, the records of a job file, the query and the lines of its answer.
#![tactic(auto)]

ghost use Rattle.std.specs.Prelude.{◌≡◌, map, ◌≤◌, length};
ghost use Rattle.std.specs.Float.{binary64};
ghost use Rattle.std.specs.Float.Ieee.{of_bits};
ghost use Rattle.arrayvec.specs.ArrayVec.{array_vec_len};
ghost use Rattle.definition.specs.Questions.{accepted};
ghost use Rattle.definition.specs.Query.{queried};
ghost use Rattle.definition.specs.Job.{own_lists, query_listing, job_listing, listing, JobPromise};
ghost use Rattle.listing.specs.Page.{Puts};

use answers::QueryLists;
use arrayvec::ArrayVec;
use asking::ask;
use calls::QueryCall;
use definition::{QuestionKind, Refusal};
use listing::Page;
use mesh::QuadMesh;
use records::Job;

// The bytes of the longest listing: a first line of 18, and 256 lines of 120.
pub const LONGEST_LISTING: usize = 30738;

// Puts the numbers of a list of bit patterns into an empty list, which is filled where it stands.
fn put_floats<const N: usize>(bits: &[u64], floats: &mut ArrayVec<f64, N>)
    requires empty { array_vec_len floats.old ≡ 0 }
    requires room { length bits.now ≤ N }
    ensures { floats.new.items ≡ map (of_bits binary64) bits.now }
{
    for pattern in bits {
        floats.push(binary64::float_of(*pattern));
    }
}

// Puts the listing of a query of at most 256 points.
fn put_query(call: &QueryCall, page: &mut Page)
    requires { length call.now.points ≤ 512 }
    ensures { Puts page.old page.new (query_listing call.now (queried call.now own_lists)) }
{
    let mut lists = QueryLists {
        nearest_node_indices: &mut [0; 256],
        nearest_node_points: &mut [0.0; 512],
        nearest_node_distances: &mut [0.0; 256],
        nearest_element_indices: &mut [0; 256],
        nearest_element_reference_points: &mut [0.0; 512],
        nearest_element_points: &mut [0.0; 512],
        nearest_element_distances: &mut [0.0; 256],
        nearest_face_element_indices: &mut [0; 256],
        nearest_face_local_faces: &mut [0; 256],
        nearest_face_reference_coordinates: &mut [0.0; 256],
        nearest_face_points: &mut [0.0; 512],
        nearest_face_distances: &mut [0.0; 256],
    };
    let answer = query::query_quad_mesh(call, &mut lists);
    page.put_answer(answer, &lists);
}

// Puts the listing of a job. Its floats are still bits.
fn put_job(job: &Job, page: &mut Page)
    ensures { Puts page.old page.new (job_listing (accepted job.now)) }
{
    let mut nodes_rz: ArrayVec<f64, 1024> = ArrayVec::new();
    let mut points: ArrayVec<f64, 512> = ArrayVec::new();
    put_floats(job.nodes(), &mut nodes_rz);
    put_floats(job.points(), &mut points);
    let mesh = QuadMesh::new(job.family(), nodes_rz.as_slice(), job.elements());
    let call = QueryCall::new(mesh, job.iterations(), points.as_slice());
    put_query(&call, page);
}

// Puts the listing of a job file.
#[tactic(auto, unfolding(definition::specs::Job::listing))]
fn put_listing(bytes: &[u8], page: &mut Page)
    ensures { Puts page.old page.new (listing bytes.now) }
{
    let mut job = Job::new();
    match job.read(bytes) {
        Ok(()) => put_job(&job, page),
        Err(refusal) => page.put_refusal(refusal.question.number(), refusal.place),
    }
}

// The listing of a job file in the first places of a lent output of at least 30,738 bytes; the number of its bytes. A shorter output is refused by question 7 and stays as it was.
// A job that is refused has a listing too, the line `refused`, number, place.
pub fn answer_job(bytes: &[u8], out: &mut [u8]) -> Result<usize, Refusal>
    ensures { JobPromise bytes.now out.old result out.new }
{
    ask(LONGEST_LISTING <= out.len(), QuestionKind::Room, 0)?;
    let mut page = Page { out, at: 0 };
    put_listing(bytes, &mut page);
    Ok(page.at)
}
