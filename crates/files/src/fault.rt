ghost use Rattle.std.specs.Prelude.{◌≡◌};
ghost use Rattle.files.specs.Faults.{grade_number, record_answer, file_answer, in_record, in_file, of_record};

use crate::entry::record_position;
use grades::Refusal;
use thiserror::Error;

/// What is wrong with the code of a record.
#[derive(Clone, Copy, Debug, PartialEq, Eq, Error)]
pub enum GradeFault {
    #[error("no grade has the code {0}")]
    NoGrade(u16),
    #[error("the code {0} is the floor's, which is left out")]
    Floor(u16),
}

/// What is wrong with a record.
#[derive(Clone, Copy, Debug, PartialEq, Eq, Error)]
pub enum RecordCause {
    #[error("its kind is neither 1 nor 2")]
    Kind,
    #[error("its first number is no state")]
    FirstState,
    #[error("its second number is no state")]
    SecondState,
    #[error("its second number is no mark")]
    Mark,
    #[error("it does not come after the record before it")]
    Order,
    #[error("{0}")]
    Grade(GradeFault),
}

/// The first fault of a record, with the record's index from 0.
#[derive(Clone, Copy, Debug, PartialEq, Eq, Error)]
#[error("record {index}: {cause}")]
pub struct RecordFault {
    pub index: u16,
    pub cause: RecordCause,
}

/// What is wrong with a file.
#[derive(Clone, Copy, Debug, PartialEq, Eq, Error)]
pub enum FileCause {
    #[error("fewer than ten bytes, or other letters than WSH")]
    Letters,
    #[error("another version than 1")]
    Version,
    #[error("another scale than the one asked for")]
    Scale,
    #[error("the states are not 1 to 64")]
    States,
    #[error("the marks are above 16")]
    Marks,
    #[error("more than 5,120 records, or not the length of so many")]
    Length,
    #[error("{0}")]
    Record(RecordFault),
}

/// The first fault of a file, with the position of the field that is at fault.
#[derive(Clone, Copy, Debug, PartialEq, Eq, Error)]
#[error("byte {position}: {cause}")]
pub struct FileFault {
    pub position: usize,
    pub cause: FileCause,
}

impl GradeFault {
    pub fn number(self) -> u8
        ensures { result ≡ grade_number self }
    {
        match self {
            GradeFault::NoGrade(_) => 1,
            GradeFault::Floor(_) => 23,
        }
    }
}

impl Refusal for GradeFault {
    ghost number = { grade_number };

    fn number(self) -> u8 {
        GradeFault::number(self)
    }
}

impl RecordFault {
    pub fn number(self) -> u8
        ensures { result ≡ (record_answer self.cause).number }
    {
        match self.cause {
            RecordCause::Kind => 21,
            RecordCause::FirstState | RecordCause::SecondState => 2,
            RecordCause::Mark => 3,
            RecordCause::Order => 22,
            RecordCause::Grade(fault) => fault.number(),
        }
    }
}

impl Refusal for RecordFault {
    ghost number = { λ fault. (record_answer fault.cause).number };

    fn number(self) -> u8 {
        RecordFault::number(self)
    }
}

impl FileFault {
    pub fn number(self) -> u8
        ensures { result ≡ (file_answer self.cause).number }
    {
        match self.cause {
            FileCause::Letters => 17,
            FileCause::Version => 18,
            FileCause::Scale => 19,
            FileCause::States | FileCause::Marks => 4,
            FileCause::Length => 20,
            FileCause::Record(fault) => fault.number(),
        }
    }
}

impl Refusal for FileFault {
    ghost number = { λ fault. (file_answer fault.cause).number };

    fn number(self) -> u8 {
        FileFault::number(self)
    }
}

impl RecordCause {
    /// Where in the record the field lies that is at fault.
    fn offset(self) -> usize
        ensures { result ≡ (record_answer self).position }
    {
        match self {
            RecordCause::Kind | RecordCause::Order => 0,
            RecordCause::FirstState => 1,
            RecordCause::SecondState | RecordCause::Mark => 2,
            RecordCause::Grade(_) => 3,
        }
    }
}

impl FileCause {
    /// Where in the file the field lies that is at fault.
    fn position(self) -> usize
        ensures { result ≡ (file_answer self).position }
    {
        match self {
            FileCause::Letters => 0,
            FileCause::Version => 3,
            FileCause::Scale => 5,
            FileCause::States => 6,
            FileCause::Marks => 7,
            FileCause::Length => 8,
            FileCause::Record(fault) => record_position(fault.index) + fault.cause.offset(),
        }
    }
}

impl From<(u16, GradeFault)> for RecordFault {
    ghost from_gives = { λ grade fault. fault ≡ in_record grade };

    fn from((index, fault): (u16, GradeFault)) -> RecordFault {
        RecordFault {
            index,
            cause: RecordCause::Grade(fault),
        }
    }
}

impl From<FileCause> for FileFault {
    ghost from_gives = { λ cause fault. fault ≡ in_file cause };

    fn from(cause: FileCause) -> FileFault {
        FileFault {
            position: cause.position(),
            cause,
        }
    }
}

impl From<RecordFault> for FileFault {
    ghost from_gives = { λ inner fault. fault ≡ of_record inner };

    fn from(fault: RecordFault) -> FileFault {
        <FileFault as From<FileCause>>::from(FileCause::Record(fault))
    }
}
