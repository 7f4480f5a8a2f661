ghost use Rattle.std.specs.Prelude.{◌≡◌, ◌+◌, ◌*◌, ◌<◌};
ghost use Rattle.files.specs.Checks.{kind_of_byte};
ghost use Rattle.files.specs.Format.{level_at, record_bytes, recorded, LeadsBack};
ghost use Rattle.files.specs.Order.{cell_at};

use crate::fault::RecordCause;
use grades::Scale;
use sheets::{Size, Structure};

/// What a record is of: a step from a state to a state, or a mark in a state.
#[derive(Clone, Copy)]
pub(crate) enum Kind {
    Step = 1,
    Mark = 2,
}

impl TryFrom<u8> for Kind {
    type Error = RecordCause;

    ghost try_from_gives = { λ byte kind. kind ≡ kind_of_byte byte };

    fn try_from(byte: u8) -> Result<Kind, RecordCause> {
        match byte {
            1 => Ok(Kind::Step),
            2 => Ok(Kind::Mark),
            _ => Err(RecordCause::Kind),
        }
    }
}

#[derive(Clone, Copy)]
pub(crate) struct Cell {
    pub(crate) kind: Kind,
    pub(crate) first: u8,
    pub(crate) second: u8,
}

#[derive(Clone, Copy)]
pub(crate) struct Record {
    pub(crate) cell: Cell,
    pub(crate) code: u16,
}

impl Record {
    pub(crate) fn to_bytes(self) -> [u8; 5]
        ensures { result ≡ record_bytes self }
    {
        let [low, high] = self.code.to_le_bytes();
        [
            self.cell.kind as u8,
            self.cell.first,
            self.cell.second,
            low,
            high,
        ]
    }
}

/// The cell at an index, in the order of the file.
fn cell_at(size: Size, index: usize) -> Cell
    requires { index < size.states * (size.states + size.marks) }
    ensures { result ≡ cell_at size.states size.marks index }
{
    let n = size.states();
    let m = size.marks();
    if index < n * n {
        return Cell {
            kind: Kind::Step,
            first: (index / n) as u8,
            second: (index % n) as u8,
        };
    }
    let index = index - n * n;
    Cell {
        kind: Kind::Mark,
        first: (index / m) as u8,
        second: (index % m) as u8,
    }
}

fn grade_at<K: Structure>(structure: &mut K, cell: Cell) -> K::Grade
    ensures value { K.Grade.Scale.level result ≡ level_at (K.Structure.tables structure.old) cell }
    ensures graded { LeadsBack K.Grade.Scale (level_at (K.Structure.tables structure.old) cell) }
    ensures same { structure.new ≡ structure.old }
{
    let first = usize::from(cell.first);
    let second = usize::from(cell.second);
    match cell.kind {
        Kind::Step => structure.step_grade(first, second),
        Kind::Mark => structure.mark_grade(first, second),
    }
}

/// The record of the cell at an index, or nothing where that is at the floor.
pub(crate) fn record_at<K: Structure>(structure: &mut K, size: Size, index: usize) -> Option<Record>
    requires { index < size.states * (size.states + size.marks) }
    ensures value { result ≡ recorded K.Grade.Scale (K.Structure.tables structure.old) (cell_at size.states size.marks index) }
    ensures graded { LeadsBack K.Grade.Scale (level_at (K.Structure.tables structure.old) (cell_at size.states size.marks index)) }
    ensures same { structure.new ≡ structure.old }
{
    let cell = cell_at(size, index);
    let grade = grade_at(structure, cell);
    if grade.at_most(<K::Grade as Scale>::floor()) {
        return None;
    }
    Some(Record {
        cell,
        code: grade.code(),
    })
}
