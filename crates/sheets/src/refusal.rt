ghost use Rattle.std.specs.Prelude.{◌≡◌};
ghost use Rattle.sheets.specs.Refusals.{size_number, draw_number, mark_number};

use grades::Refusal;
use thiserror::Error;

/// Why a sheet is not made.
#[derive(Clone, Copy, Debug, PartialEq, Eq, Error)]
pub enum SizeRefusal {
    #[error("the states are not 1 to 64")]
    States,
    #[error("the marks are above 16")]
    Marks,
    #[error("the memory has not one grade for each step and each mark")]
    Memory,
}

/// Why a step is not drawn.
#[derive(Clone, Copy, Debug, PartialEq, Eq, Error)]
pub enum DrawRefusal {
    #[error("the sheet is over memory of another length than passed")]
    Memory,
    #[error("no such state")]
    State,
}

/// Why a state is not marked.
#[derive(Clone, Copy, Debug, PartialEq, Eq, Error)]
pub enum MarkRefusal {
    #[error("the sheet is over memory of another length than passed")]
    Memory,
    #[error("no such state")]
    State,
    #[error("no such mark")]
    Mark,
}

impl SizeRefusal {
    pub fn number(self) -> u8
        ensures { result ≡ size_number self }
    {
        match self {
            SizeRefusal::States | SizeRefusal::Marks => 4,
            SizeRefusal::Memory => 5,
        }
    }
}

impl Refusal for SizeRefusal {
    ghost number = { size_number };

    fn number(self) -> u8 {
        SizeRefusal::number(self)
    }
}

impl DrawRefusal {
    pub fn number(self) -> u8
        ensures { result ≡ draw_number self }
    {
        match self {
            DrawRefusal::Memory => 5,
            DrawRefusal::State => 2,
        }
    }
}

impl Refusal for DrawRefusal {
    ghost number = { draw_number };

    fn number(self) -> u8 {
        DrawRefusal::number(self)
    }
}

impl MarkRefusal {
    pub fn number(self) -> u8
        ensures { result ≡ mark_number self }
    {
        match self {
            MarkRefusal::Memory => 5,
            MarkRefusal::State => 2,
            MarkRefusal::Mark => 3,
        }
    }
}

impl Refusal for MarkRefusal {
    ghost number = { mark_number };

    fn number(self) -> u8 {
        MarkRefusal::number(self)
    }
}
