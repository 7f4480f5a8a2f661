ghost use Rattle.std.specs.Prelude.{◌≡◌, ◌≤◌, length, OnOk, IfOk, None};
ghost use Rattle.std.specs.Result.{result_err};
ghost use Rattle.files.specs.Format.{file_length};
ghost use Rattle.files.specs.Entries.{states, marks, count, entries_from};
ghost use Rattle.files.specs.Checks.{header_fault, grade_fault, fault_at, record_fault, records_fault, file_fault};
ghost use Rattle.files.specs.Opening.{Verdict};

use crate::cell::Kind;
use crate::entry::{Entry, raw_records, record_position};
use crate::fault::{FileCause, FileFault, GradeFault, RecordCause, RecordFault};
use grades::Scale;

pub(crate) const MOST_STATES: u8 = 64;

pub(crate) const MOST_MARKS: u8 = 16;

const MOST_RECORDS: u16 = 5120;

/// What a header says of its file.
#[derive(Clone, Copy)]
struct Header {
    states: u8,
    marks: u8,
}

impl Header {
    /// Reads the header of a file for a scale.
    fn parse<S: Scale>(bytes: &[u8]) -> Result<Header, FileCause>
        ensures fault { result_err result ≡ header_fault S.Scale bytes.now }
        ensures sizes { IfOk result (λ header. (header.states ≡ states bytes.now) × (header.marks ≡ marks bytes.now)) }
        ensures whole { OnOk result (length bytes.now ≡ file_length (count bytes.now)) }
        ensures few { OnOk result (count bytes.now ≤ 5120) }
    {
        let &[b'W', b'S', b'H', v0, v1, number, states, marks, k0, k1, ..] = bytes else {
            return Err(FileCause::Letters);
        };
        if u16::from_le_bytes([v0, v1]) != 1 {
            return Err(FileCause::Version);
        }
        if number != S::number() {
            return Err(FileCause::Scale);
        }
        if states < 1 || states > MOST_STATES {
            return Err(FileCause::States);
        }
        if marks > MOST_MARKS {
            return Err(FileCause::Marks);
        }
        let count = u16::from_le_bytes([k0, k1]);
        if count > MOST_RECORDS || bytes.len() != record_position(count) {
            return Err(FileCause::Length);
        }
        Ok(Header { states, marks })
    }
}

impl Entry {
    /// Checks the code: a grade has it, and that is above the floor.
    fn check_grade<S: Scale>(self) -> Result<(), GradeFault>
        ensures { result_err result ≡ grade_fault S.Scale self.code }
    {
        let grade = S::of_code(self.code).ok_or(GradeFault::NoGrade(self.code))?;
        if grade.at_most(S::floor()) {
            return Err(GradeFault::Floor(self.code));
        }
        Ok(())
    }

    fn fault(self, cause: RecordCause) -> RecordFault
        ensures { result ≡ fault_at self cause }
    {
        RecordFault {
            index: self.index,
            cause,
        }
    }

    /// Checks a record of a file with this header, after the record before it.
    fn check<S: Scale>(self, header: Header, before: Option<Entry>) -> Result<(), RecordFault>
        ensures { result_err result ≡ record_fault S.Scale header.states header.marks before self }
    {
        let kind = Kind::try_from(self.kind).map_err(|cause| self.fault(cause))?;
        let (limit, cause) = match kind {
            Kind::Step => (header.states, RecordCause::SecondState),
            Kind::Mark => (header.marks, RecordCause::Mark),
        };
        if self.first >= header.states {
            return Err(self.fault(RecordCause::FirstState));
        }
        if self.second >= limit {
            return Err(self.fault(cause));
        }
        if let Some(earlier) = before {
            if earlier.key() >= self.key() {
                return Err(self.fault(RecordCause::Order));
            }
        }
        self.check_grade::<S>()
            .map_err(|fault| (self.index, fault))?;
        Ok(())
    }
}

fn check_records<S: Scale>(header: Header, raws: &[[u8; 5]]) -> Result<(), RecordFault>
    requires { length raws.now ≤ 5120 }
    ensures { result_err result ≡ records_fault S.Scale header.states header.marks None (entries_from 0 raws.now) }
{
    let mut before = None;
    for (index, raw) in raws.iter().enumerate() {
        let entry = Entry::new(index as u16, raw);
        entry.check::<S>(header, before)?;
        before = Some(entry);
    }
    Ok(())
}

/// Finds the first fault: of the header, or else of the records in turn.
fn find_fault<S: Scale>(bytes: &[u8]) -> Result<(), FileFault>
    ensures { result_err result ≡ file_fault S.Scale bytes.now }
{
    let header = Header::parse::<S>(bytes)?;
    check_records::<S>(header, raw_records(bytes))?;
    Ok(())
}

/// Answers the first fault; a file without one is the file of what it records.
fn check_all<S: Scale>(bytes: &[u8]) -> Result<(), FileFault>
    ensures { Verdict S.Scale bytes.now (result_err result) }
{
    find_fault::<S>(bytes)
}

/// Checks a file for a scale: passes it, or answers its first fault.
pub fn check<S: Scale>(bytes: &[u8]) -> Result<(), FileFault>
    ensures { Verdict S.Scale bytes.now (result_err result) }
{
    check_all::<S>(bytes)
}
