ghost use Rattle.std.specs.Prelude.{◌≡◌, ◌+◌, ◌*◌, ◌≤◌, ◌++◌, length, drop, MatchResult};
ghost use Rattle.std.proofs.lemmas.List.Edits.{sets};
ghost use Rattle.std.specs.Result.{result_err};
ghost use Rattle.files.specs.Format.{cells, records_of, record_bytes, bytes_of, header_bytes, table_records, file_of, file_length, Saved};
ghost use Rattle.files.specs.Progress.{Planned, GradedTo};
ghost use Rattle.files.specs.Saving.{Storable};
ghost use Rattle.files.specs.Refusals.{save_number, save_refusal};

use crate::cell::{Record, record_at};
use crate::entry::{HEADER, RECORD};
use grades::{Refusal, Scale};
use sheets::{Size, Structure};
use thiserror::Error;

/// Why a structure is not saved.
#[derive(Clone, Copy, Debug, PartialEq, Eq, Error)]
pub enum SaveRefusal {
    #[error("the memory is shorter than the file")]
    Memory,
}

impl SaveRefusal {
    pub fn number(self) -> u8
        ensures { result ≡ save_number self }
    {
        match self {
            SaveRefusal::Memory => 24,
        }
    }
}

impl Refusal for SaveRefusal {
    ghost number = { save_number };

    fn number(self) -> u8 {
        SaveRefusal::number(self)
    }
}

/// The size of a structure, and how many records its file has.
#[derive(Clone, Copy)]
struct Plan {
    size: Size,
    count: usize,
}

fn put_header(out: &mut [u8], number: u8, size: Size, count: u16)
    requires { 10 ≤ length out.old }
    ensures { out.new ≡ sets out.old 0 (header_bytes number size.states size.marks count) }
{
    let [v0, v1] = 1u16.to_le_bytes();
    let [k0, k1] = count.to_le_bytes();
    let n = size.states() as u8;
    let m = size.marks() as u8;
    out[..HEADER].copy_from_slice(&[b'W', b'S', b'H', v0, v1, number, n, m, k0, k1]);
}

fn put_record(out: &mut [u8], at: usize, entry: Record)
    requires { at + 5 ≤ length out.old }
    ensures written { out.new ≡ sets out.old at (record_bytes entry) }
    ensures room { at + 5 ≤ length out.new }
{
    out[at..at + RECORD].copy_from_slice(&entry.to_bytes());
}

fn count_records<K: Structure>(structure: &mut K, size: Size) -> usize
    ensures value { result ≡ length (records_of K.Grade.Scale (K.Structure.tables structure.old) (cells size.states size.marks)) }
    ensures most { result ≤ size.states * (size.states + size.marks) }
    ensures graded { GradedTo K.Grade.Scale (K.Structure.tables structure.old) size.states size.marks (size.states * (size.states + size.marks)) }
    ensures same { structure.new ≡ structure.old }
{
    // no chain: after one, nothing is known of a structure that its closure borrows as `&mut`
    let mut count = 0;
    for index in 0..size.cells() {
        if record_at(structure, size, index).is_some() {
            count += 1;
        }
    }
    count
}

/// Writes the records after the header.
fn put_records<K: Structure>(structure: &mut K, size: Size, out: &mut [u8])
    requires { file_length (length (records_of K.Grade.Scale (K.Structure.tables structure.old) (cells size.states size.marks))) ≤ length out.old }
    ensures written { out.new ≡ sets out.old 10 (bytes_of (records_of K.Grade.Scale (K.Structure.tables structure.old) (cells size.states size.marks))) }
    ensures same { structure.new ≡ structure.old }
{
    // no chain: after one, nothing is known of a structure that its closure borrows as `&mut`
    let mut at = HEADER;
    for index in 0..size.cells() {
        if let Some(entry) = record_at(structure, size, index) {
            put_record(out, at, entry);
            at += RECORD;
        }
    }
}

/// The size of a structure, and how many records its file has.
fn plan_of<K: Structure>(structure: &mut K) -> Plan
    ensures planned { Planned K.Grade.Scale (K.Structure.tables structure.old) result }
    ensures storable { Storable K.Grade.Scale (K.Structure.tables structure.old) }
    ensures same { structure.new ≡ structure.old }
{
    let size = Size::of(structure);
    let count = count_records(structure, size);
    Plan { size, count }
}

fn put_file<K: Structure>(structure: &mut K, plan: Plan, out: &mut [u8])
    requires planned { Planned K.Grade.Scale (K.Structure.tables structure.old) plan }
    requires room { file_length plan.count ≤ length out.old }
    ensures written { out.new ≡ file_of K.Grade.Scale (K.Structure.tables structure.old) ++ drop (file_length plan.count) out.old }
    ensures same { structure.new ≡ structure.old }
{
    put_header(
        out,
        <K::Grade as Scale>::number(),
        plan.size,
        plan.count as u16,
    );
    put_records(structure, plan.size, out);
}

/// Writes the file of a structure's tables, and answers its length.
pub fn save<K: Structure>(structure: &mut K, out: &mut [u8]) -> Result<usize, SaveRefusal>
    ensures refused { result_err result ≡ save_refusal (length (table_records K.Grade.Scale (K.Structure.tables structure.old))) (length out.old) }
    ensures saved { MatchResult result
        (λ answer. Saved K.Grade.Scale (K.Structure.tables structure.old) out.old out.new answer)
        (λ _. out.new ≡ out.old) }
    ensures storable { Storable K.Grade.Scale (K.Structure.tables structure.old) }
    ensures same { structure.new ≡ structure.old }
{
    let plan = plan_of(structure);
    let length = HEADER + RECORD * plan.count;
    if out.len() < length {
        return Err(SaveRefusal::Memory);
    }
    put_file(structure, plan, out);
    Ok(length)
}
