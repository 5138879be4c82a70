// Between the numbers of a C caller and the types of the calls: an answer as a struct of numbers, a number as a formulation, a number as a yes or a no.
// It knows the definition alone; nothing of a list.
#![tactic(auto)]

ghost use Rattle.std.specs.Prelude.{◌≡◌};
ghost use Rattle.definition.specs.Questions.{numbered_outcome, outcome};
ghost use Rattle.numbers.specs.Numbers.{formulation_of, yes_of, query_numbers, operator_numbers, job_numbers};

use definition::{NumberedRefusal, OperatorCounts, QueryCounts, Refusal, Structural2dFormulation};

// What a query answers, in numbers: `question` is 0 where it is accepted, and `place` then too; else the three counts are 0.
// Kept: the C interface reads the question as a number, with the counts beside it. One `Numbers<C>` in place of the three structs cannot be exported: Rattle refuses a struct with type arguments in an exported function's signature (`unsupported-generic-in-c`).
#[repr(C)]
#[derive(Clone, Copy)]
pub struct QueryNumbers {
    pub question: usize,
    pub place: usize,
    pub points: usize,
    pub repeated: usize,
    pub inside: usize,
}

// What an operator answers, in numbers, likewise.
// Kept: as `QueryNumbers`.
#[repr(C)]
#[derive(Clone, Copy)]
pub struct OperatorNumbers {
    pub question: usize,
    pub place: usize,
    pub rows: usize,
    pub columns: usize,
    pub triplets: usize,
}

// What the call from a job's bytes to its listing answers, in numbers, likewise.
// Kept: as `QueryNumbers`.
#[repr(C)]
#[derive(Clone, Copy)]
pub struct JobNumbers {
    pub question: usize,
    pub place: usize,
    pub bytes: usize,
}

// Formulation 0 is axisymmetric, and any other number plane strain of the thickness, whatever that is.
// Kept: the C interface passes the strains that are meant as a number, with the thickness beside it.
pub fn formulation_of(formulation: usize, thickness: f64) -> Structural2dFormulation
    ensures { result ≡ formulation_of formulation thickness }
{
    if formulation == 0 {
        Structural2dFormulation::Axisymmetric
    } else {
        Structural2dFormulation::PlaneStrain { thickness }
    }
}

// 0 is no, and any other number yes.
// Kept: the C interface passes a yes or a no as a number.
pub fn yes_of(number: usize) -> bool
    ensures { result ≡ yes_of number }
{
    number != 0
}

// The numbers of a query's answer, of which a refusal may have any number.
// Kept: the three structs are apart (see `QueryNumbers`), and so are their conversions.
pub fn query_numbers(answer: Result<QueryCounts, NumberedRefusal>) -> QueryNumbers
    ensures { result ≡ query_numbers (numbered_outcome answer) }
{
    match answer {
        Ok(counts) => QueryNumbers {
            question: 0,
            place: 0,
            points: counts.points,
            repeated: counts.repeated,
            inside: counts.inside,
        },
        Err(refusal) => QueryNumbers {
            question: usize::from(refusal.question),
            place: refusal.place,
            points: 0,
            repeated: 0,
            inside: 0,
        },
    }
}

// The numbers of an operator's answer, likewise.
// Kept: as `query_numbers`.
pub fn operator_numbers(answer: Result<OperatorCounts, NumberedRefusal>) -> OperatorNumbers
    ensures { result ≡ operator_numbers (numbered_outcome answer) }
{
    match answer {
        Ok(counts) => OperatorNumbers {
            question: 0,
            place: 0,
            rows: counts.rows,
            columns: counts.columns,
            triplets: counts.triplets,
        },
        Err(refusal) => OperatorNumbers {
            question: usize::from(refusal.question),
            place: refusal.place,
            rows: 0,
            columns: 0,
            triplets: 0,
        },
    }
}

// The numbers of a job's answer, likewise.
// Kept: as `query_numbers`.
pub fn job_numbers(answer: Result<usize, NumberedRefusal>) -> JobNumbers
    ensures { result ≡ job_numbers (numbered_outcome answer) }
{
    match answer {
        Ok(bytes) => JobNumbers {
            question: 0,
            place: 0,
            bytes,
        },
        Err(refusal) => JobNumbers {
            question: usize::from(refusal.question),
            place: refusal.place,
            bytes: 0,
        },
    }
}

impl From<Result<QueryCounts, Refusal>> for QueryNumbers {
    ghost from_gives = { λ answer n. n ≡ query_numbers (outcome answer) };

    fn from(answer: Result<QueryCounts, Refusal>) -> QueryNumbers {
        query_numbers(answer.map_err(NumberedRefusal::from))
    }
}

impl From<Result<OperatorCounts, Refusal>> for OperatorNumbers {
    ghost from_gives = { λ answer n. n ≡ operator_numbers (outcome answer) };

    fn from(answer: Result<OperatorCounts, Refusal>) -> OperatorNumbers {
        operator_numbers(answer.map_err(NumberedRefusal::from))
    }
}

impl From<Result<usize, Refusal>> for JobNumbers {
    ghost from_gives = { λ answer n. n ≡ job_numbers (outcome answer) };

    fn from(answer: Result<usize, Refusal>) -> JobNumbers {
        job_numbers(answer.map_err(NumberedRefusal::from))
    }
}
