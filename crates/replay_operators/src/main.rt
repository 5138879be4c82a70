// Reads operator cases from standard input, each after its length in four bytes, the least first, and prints what the three operators of the C interface answer to them.
// A case: the operator, the family, the formulation and whether pairs are given, a byte each; the thickness in eight bytes; ten counts in two bytes each,
// of the seven lists given and of the three lists lent; then the seven lists, eight bytes a float and four bytes an index. The least byte comes first.
// The answer: its line; a line for each triplet; and whether every place of the lent lists past the triplets is as it was lent.
#![tactic(auto)]

use arrayvec::ArrayVec;
use numbers::OperatorNumbers;
use std::io::Read;
use std::{fmt, io};

// What the lent lists are filled with: no row or column is as large, and no stored answer has this value.
const UNTOUCHED: usize = 4294967295;

const UNTOUCHED_VALUE: f64 = 12345.678;

// ---- a case and how its bytes are read

// The operators, and which byte names each.
#[derive(Clone, Copy)]
enum OperatorKind {
    Interpolation,
    Strain,
    Stress,
}

impl From<u8> for OperatorKind {
    fn from(byte: u8) -> Self {
        match byte {
            0 => OperatorKind::Interpolation,
            1 => OperatorKind::Strain,
            _ => OperatorKind::Stress,
        }
    }
}

// The bytes of a case that are not read yet. Past the last of them it reads zeros.
#[derive(Drop)]
struct Bytes<'a> {
    rest: &'a [u8],
}

impl Bytes<'_> {
    fn next<const N: usize>(&mut self) -> io::Result<[u8; N]> {
        let mut bytes = [0; N];
        self.rest.read(&mut bytes)?;
        Ok(bytes)
    }

    // The next list, of `count` numbers: the first 256 of them.
    fn list<T: Number>(&mut self, count: u16) -> io::Result<ArrayVec<T, 256>> {
        let mut list = ArrayVec::new();
        for _ in 0..count {
            let number = T::read(self)?;
            if !list.is_full() {
                list.push(number);
            }
        }
        Ok(list)
    }
}

// A number as a case holds it, the least byte first.
trait Number: Default + Drop {
    fn read(bytes: &mut Bytes<'_>) -> io::Result<Self>;
}

impl Number for u8 {
    fn read(bytes: &mut Bytes<'_>) -> io::Result<Self> {
        Ok(u8::from_le_bytes(bytes.next()?))
    }
}

impl Number for u16 {
    fn read(bytes: &mut Bytes<'_>) -> io::Result<Self> {
        Ok(u16::from_le_bytes(bytes.next()?))
    }
}

impl Number for u32 {
    fn read(bytes: &mut Bytes<'_>) -> io::Result<Self> {
        Ok(u32::from_le_bytes(bytes.next()?))
    }
}

// An index has four bytes.
impl Number for usize {
    fn read(bytes: &mut Bytes<'_>) -> io::Result<Self> {
        Ok(u32::read(bytes)? as usize)
    }
}

impl Number for f64 {
    fn read(bytes: &mut Bytes<'_>) -> io::Result<Self> {
        Ok(binary64::float_of(u64::from_le_bytes(bytes.next()?)))
    }
}

// What an operator is given, and how many places of each list it is lent.
#[derive(Drop)]
struct Case {
    operator: OperatorKind,
    family: u8,
    // Kept: numbers beside the thickness and the list of pairs, as the case file has them and the C interface takes them.
    formulation: u8,
    pairs_given: u8,
    thickness: f64,
    nodes_rz: ArrayVec<f64, 256>,
    elements: ArrayVec<u32, 256>,
    element_indices: ArrayVec<usize, 256>,
    reference_points: ArrayVec<f64, 256>,
    material_ids: ArrayVec<usize, 256>,
    material_table: ArrayVec<f64, 256>,
    pairs: ArrayVec<f64, 256>,
    rows: u16,
    columns: u16,
    values: u16,
}

impl Case {
    fn parse(case: &[u8]) -> io::Result<Self> {
        let mut bytes = Bytes { rest: case };
        let operator = OperatorKind::from(u8::read(&mut bytes)?);
        let family = u8::read(&mut bytes)?;
        let formulation = u8::read(&mut bytes)?;
        let pairs_given = u8::read(&mut bytes)?;
        let thickness = f64::read(&mut bytes)?;
        let mut counts = [0; 10];
        for count in &mut counts {
            *count = u16::read(&mut bytes)?;
        }
        let [
            nodes_rz,
            elements,
            element_indices,
            reference_points,
            material_ids,
            material_table,
            pairs,
            rows,
            columns,
            values,
        ] = counts;
        Ok(Case {
            operator,
            family,
            formulation,
            pairs_given,
            thickness,
            nodes_rz: bytes.list(nodes_rz)?,
            elements: bytes.list(elements)?,
            element_indices: bytes.list(element_indices)?,
            reference_points: bytes.list(reference_points)?,
            material_ids: bytes.list(material_ids)?,
            material_table: bytes.list(material_table)?,
            pairs: bytes.list(pairs)?,
            rows,
            columns,
            values,
        })
    }

    // The next case of the input. An input that has ended reads as a case of no bytes, which there is none of. No stored case is longer than the buffer.
    fn next(rt: &impl Input) -> io::Result<Option<Self>> {
        let mut length = [0; 4];
        reading::read_full(rt, &mut length)?;
        let length = u32::from_le_bytes(length) as usize;
        if length == 0 {
            return Ok(None);
        }
        let mut buf = [0; 65536];
        let bytes = &mut buf[..length.min(65536)];
        reading::read_full(rt, bytes)?;
        Case::parse(bytes).map(Some)
    }

    // Answers the case, and prints the answer.
    fn answer(&self, rt: &impl Print) -> io::Result<()> {
        let mut lent = Lent::new();
        let rows = &mut lent.rows[..(self.rows as usize).min(1152)];
        let columns = &mut lent.columns[..(self.columns as usize).min(1152)];
        let values = &mut lent.values[..(self.values as usize).min(1152)];
        let answer = match self.operator {
            OperatorKind::Interpolation => operator_exports::sobrizenta_interpolation_operator(
                self.family as usize,
                &self.nodes_rz,
                &self.elements,
                &self.element_indices,
                &self.reference_points,
                rows,
                columns,
                values,
            ),
            OperatorKind::Strain => operator_exports::sobrizenta_strain_operator(
                self.family as usize,
                &self.nodes_rz,
                &self.elements,
                &self.element_indices,
                &self.reference_points,
                self.formulation as usize,
                self.thickness,
                rows,
                columns,
                values,
            ),
            OperatorKind::Stress => operator_exports::sobrizenta_stress_operator(
                self.family as usize,
                &self.nodes_rz,
                &self.elements,
                &self.element_indices,
                &self.reference_points,
                self.formulation as usize,
                self.thickness,
                &self.material_ids,
                &self.material_table,
                self.pairs_given as usize,
                &self.pairs,
                rows,
                columns,
                values,
            ),
        };
        lent.print(rt, answer)
    }
}

// ---- the lent lists

// A value's bits in sixteen hexadecimal digits, or nan.
#[derive(Clone, Copy)]
struct Bits(f64);

impl fmt::Display for Bits {
    fn fmt<W: fmt::Write>(&self, f: &mut fmt::Formatter<W>) -> fmt::Result {
        if self.0.is_nan() {
            write!(f, "nan")
        } else {
            let bits = self.0.to_bits();
            write!(f, "{bits:016x}")
        }
    }
}

// Kept: three lists side by side, since the C interface is lent them so.
#[derive(Drop)]
struct Lent {
    rows: [usize; 1152],
    columns: [usize; 1152],
    values: [f64; 1152],
}

impl Lent {
    fn new() -> Self {
        Lent {
            rows: [UNTOUCHED; 1152],
            columns: [UNTOUCHED; 1152],
            values: [UNTOUCHED_VALUE; 1152],
        }
    }

    // Prints the line of an answer, of which question 0 means that it is built; the lines of the triplets; and whether all places after them are as they were lent.
    // Kept: the question as a number, as the C interface answers.
    fn print(&self, rt: &impl Print, answer: OperatorNumbers) -> io::Result<()> {
        let OperatorNumbers {
            question,
            place,
            rows,
            columns,
            triplets,
        } = answer;
        if question == 0 {
            println!(rt; "built {rows} {columns} {triplets}")?;
        } else {
            println!(rt; "refused {question} {place}")?;
        }
        let places = self.rows.iter().zip(&self.columns).zip(&self.values);
        let mut kept = true;
        for (i, ((row, column), value)) in places.enumerate() {
            if i < triplets {
                let value = Bits(*value);
                println!(rt; "{row} {column} {value}")?;
            } else if *row != UNTOUCHED || *column != UNTOUCHED || *value != UNTOUCHED_VALUE {
                kept = false;
            }
        }
        if kept {
            println!(rt; "kept")
        } else {
            println!(rt; "touched")
        }
    }
}

// Answers case after case until the input ends.
fn main(rt: HostRuntime) -> io::Result<()> {
    for _ in 0..100000 {
        let Some(case) = Case::next(&rt)? else {
            break;
        };
        case.answer(&rt)?;
    }
    Ok(())
}
