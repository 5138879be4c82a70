// The records of a job file: from a job's bytes to the job. It knows the definition, the families and how a question is put: no mesh, no query and no listing.
// Floats stay bits. Every call has an answer for every list of bytes.
#![tactic(auto)]

ghost use Rattle.std.specs.Prelude.{◌≡◌, true, ◌++◌, ◌+◌, ◌*◌, ◌≤◌, ◌<◌, length, slice_range, IfOk, OnOk, OnErr};
ghost use Rattle.definition.specs.Questions.{asked, outcome};
ghost use Rattle.definition.specs.Job.{mark_at, is_known, is_head, family_read, record_bytes, pair_bits, row_of, taken, within_limits, record_questions, empty_job, read_job};
ghost use Rattle.arrayvec.specs.ArrayVec.{array_vec_len};
ghost use Rattle.records.specs.Reading.{read_outcome, room_for, Bounded};

use arrayvec::ArrayVec;
use asking::ask;
use definition::{Mark, QuestionKind, Refusal};
use std::marker::Model;

// ---- one record

// The record at a place of a job's bytes.
// Kept: the bytes and a place in them, as the definition reads a record; a slice from the place on would need both as ghost members, and is no plainer.
#[derive(Drop)]
struct Record<'a> {
    bytes: &'a [u8],
    at: usize,
    mark: Mark,
    ghost inside: { at ≤ length bytes.now },
    ghost read: { mark ≡ mark_at bytes.now at },
}

impl<'a> Record<'a> {
    // A mark of one byte is not whole, and so unknown.
    #[tactic(auto, unfolding(definition::specs::Job::mark_at, definition::specs::Job::mark_of))]
    fn new(bytes: &'a [u8], at: usize) -> Record<'a>
        requires { at ≤ length bytes.now }
        ensures { (result.bytes.now ≡ bytes.now) × (result.at ≡ at) }
    {
        let mark = match &bytes[at..] {
            [b'Q', b'F', ..] => Mark::Head,
            [b'Q', b'N', ..] => Mark::Node,
            [b'Q', b'E', ..] => Mark::Element,
            [b'Q', b'P', ..] => Mark::Point,
            _ => Mark::Unknown,
        };
        Record { bytes, at, mark }
    }

    fn is_known(&self) -> bool
        ensures { result ≡ is_known self.now.mark }
    {
        self.mark != Mark::Unknown
    }

    fn is_head(&self) -> bool
        ensures { result ≡ is_head self.now.mark }
    {
        self.mark == Mark::Head
    }

    // Its bytes, its mark among them.
    #[tactic(auto, unfolding(definition::specs::Job::record_bytes))]
    fn size(&self, family: usize) -> usize
        ensures value { result ≡ record_bytes self.now.mark family }
        ensures bounds { (2 ≤ result) × (result ≤ 38) }
    {
        match self.mark {
            Mark::Head => 5,
            Mark::Node | Mark::Point => 18,
            Mark::Element => 2 + 4 * elements::nodes_per_element(family),
            Mark::Unknown => 2,
        }
    }

    // Whether a QF names a family, 4 or 9. The other kinds name none.
    fn names_family(&self) -> bool
        ensures { result ≡ family_read self.now.mark self.now.bytes.now self.now.at }
    {
        match self.mark {
            Mark::Head => elements::is_family(lists::get_or(self.bytes, self.at + 2, 0) as usize),
            Mark::Node | Mark::Element | Mark::Point | Mark::Unknown => true,
        }
    }

    // N of its bytes, from one of them on.
    fn part<const N: usize>(&self, from: usize) -> [u8; N]
        requires { self.now.at + from + N ≤ length self.now.bytes.now }
        ensures { result ≡ slice_range self.now.bytes.now (self.now.at + from) (self.now.at + from + N) }
    {
        let start = self.at + from;
        self.bytes[start..start + N].try_into().unwrap()
    }

    // Puts its two floats' bits at the end of a list.
    fn push_pair<const N: usize>(&self, list: &mut ArrayVec<u64, N>)
        requires room { array_vec_len list.old + 2 ≤ N }
        requires whole { self.now.at + 18 ≤ length self.now.bytes.now }
        ensures { list.new.items ≡ list.old.items ++ pair_bits self.now.bytes.now (self.now.at + 2) }
    {
        list.push(u64::from_le_bytes(self.part(2)));
        list.push(u64::from_le_bytes(self.part(10)));
    }

    // Puts its f node numbers at the end of a list.
    fn push_row<const N: usize>(&self, f: usize, list: &mut ArrayVec<u32, N>)
        requires room { array_vec_len list.old + f ≤ N }
        requires whole { self.now.at + (2 + 4 * f) ≤ length self.now.bytes.now }
        ensures { list.new.items ≡ list.old.items ++ row_of self.now.bytes.now (self.now.at + 2) f }
    {
        for local_index in 0..f {
            list.push(u32::from_le_bytes(self.part(2 + 4 * local_index)));
        }
    }
}

// ---- the job

// What a job's bytes are read as: its family, its iterations, two coordinates' bits a node, F node numbers an element and two coordinates' bits a point.
#[derive(Drop)]
pub struct Job {
    family: u8,
    iterations: u16,
    nodes: ArrayVec<u64, 1024>,
    elements: ArrayVec<u32, 2304>,
    points: ArrayVec<u64, 512>,
}

// A contract reads a job as the definition's.
impl Model for Job {
    ghost use Rattle.definition.specs.Job.{Job as Value'};

    ghost Value = { Value' };

    ghost view = { λ j. record { family = j.family; iterations = j.iterations; nodes = j.nodes.items; elements = j.elements.items; points = j.points.items } };
}

impl Job {
    // The job of no bytes.
    pub fn new() -> Job
        ensures { result ≡ empty_job }
    {
        Job {
            family: 0,
            iterations: 0,
            nodes: ArrayVec::new(),
            elements: ArrayVec::new(),
            points: ArrayVec::new(),
        }
    }

    // Becomes the job that the bytes are, whatever it was, or the first question that was answered no, with the record's index: then it is the job of no bytes.
    // A job is large, so it is read where it stands.
    pub fn read(&mut self, bytes: &[u8]) -> Result<(), Refusal>
        ensures outcome { read_outcome result self.new ≡ read_job bytes.now }
        ensures bounded { OnOk result (Bounded self.new) }
        ensures refused { OnErr result (self.new ≡ empty_job) }
    {
        self.clear();
        let answer = self.take_all(bytes);
        if answer.is_err() {
            self.clear();
        }
        answer
    }

    fn clear(&mut self)
        ensures { self.new ≡ empty_job }
    {
        self.family = 0;
        self.iterations = 0;
        self.nodes.clear();
        self.elements.clear();
        self.points.clear();
    }

    pub fn family(&self) -> usize
        ensures { result ≡ self.now.family }
    {
        self.family as usize
    }

    pub fn iterations(&self) -> usize
        ensures { result ≡ self.now.iterations }
    {
        self.iterations as usize
    }

    pub fn nodes(&self) -> &[u64]
        ensures value { result.now ≡ self.now.nodes }
        ensures fits { length result.now ≤ 1024 }
    {
        self.nodes.as_slice()
    }

    pub fn elements(&self) -> &[u32]
        ensures value { result.now ≡ self.now.elements }
        ensures fits { length result.now ≤ 2304 }
    {
        self.elements.as_slice()
    }

    pub fn points(&self) -> &[u64]
        ensures value { result.now ≡ self.now.points }
        ensures fits { length result.now ≤ 512 }
    {
        self.points.as_slice()
    }

    // Whether there is room for a record of this kind: at most 512 nodes, 256 elements and 256 points.
    #[tactic(auto, unfolding(definition::specs::Elements::nodes_of))]
    fn has_room(&self, mark: Mark) -> bool
        ensures { result ≡ room_for mark self.now }
    {
        match mark {
            Mark::Node => self.nodes.len() + 2 <= 1024,
            Mark::Element => {
                let f = elements::nodes_per_element(self.family as usize);
                self.elements.len() + f <= f * 256
            }
            Mark::Point => self.points.len() + 2 <= 512,
            Mark::Head | Mark::Unknown => true,
        }
    }

    // Questions 18, 19, 20, 1 and 21 of the next record, in this order.
    #[tactic(auto, unfolding(definition::specs::Questions::asked, definition::specs::Job::record_questions))]
    fn record_questions(&self, next: &Record, index: usize) -> Result<(), Refusal>
        requires limits { within_limits self.now ≡ true }
        requires start { index ≡ 0 → self.now ≡ empty_job }
        ensures { outcome result ≡ asked (record_questions next.now.bytes.now next.now.at index self.now) tt }
    {
        let left = next.bytes.len() - next.at;
        ask(next.is_known(), QuestionKind::MarkKnown, index)?;
        ask(
            next.is_head() == (index == 0),
            QuestionKind::HeadFirst,
            index,
        )?;
        ask(
            next.size(self.family as usize) <= left,
            QuestionKind::BodyWhole,
            index,
        )?;
        ask(next.names_family(), QuestionKind::FamilyKnown, index)?;
        ask(self.has_room(next.mark), QuestionKind::WithinLimits, index)
    }

    // Takes a record, which has passed its questions.
    #[tactic(auto, unfolding(definition::specs::Job::record_bytes, definition::specs::Job::taken))]
    fn take(&mut self, next: &Record)
        requires whole { next.now.at + record_bytes next.now.mark self.old.family ≤ length next.now.bytes.now }
        requires room { room_for next.now.mark self.old ≡ true }
        ensures value { self.new ≡ taken next.now.mark next.now.bytes.now next.now.at self.old }
        ensures iterations_bound { self.new.iterations < 65536 }
    {
        match next.mark {
            Mark::Head => {
                self.family = next.bytes[next.at + 2];
                self.iterations = u16::from_le_bytes(next.part(3));
            }
            Mark::Node => next.push_pair(&mut self.nodes),
            Mark::Element => {
                let f = elements::nodes_per_element(self.family as usize);
                next.push_row(f, &mut self.elements)
            }
            Mark::Point => next.push_pair(&mut self.points),
            Mark::Unknown => {}
        }
    }

    // Takes the records one after the other, up to the first that is refused.
    fn take_all(&mut self, bytes: &[u8]) -> Result<(), Refusal>
        requires { self.old ≡ empty_job }
        ensures outcome { read_outcome result self.new ≡ read_job bytes.now }
        ensures bounded { OnOk result (Bounded self.new) }
    {
        let mut at = 0;
        let mut index = 0;
        // Kept: the step is a record's own length, which no range gives.
        while at < bytes.len() {
            let next = Record::new(bytes, at);
            self.record_questions(&next, index)?;
            at += next.size(self.family());
            self.take(&next);
            index += 1;
        }
        ask(0 < index, QuestionKind::HeadFirst, 0)?;
        Ok(())
    }
}

// The job that the bytes are, or the first question that was answered no, with the record's index.
pub fn read_job(bytes: &[u8]) -> Result<Job, Refusal>
    ensures outcome { outcome result ≡ read_job bytes.now }
    ensures bounded { IfOk result Bounded }
{
    let mut job = Job::new();
    job.read(bytes)?;
    Ok(job)
}
