ghost use Rattle.sheets.specs.Tables.{Limits};

/// How many states and marks a structure has, within the limits.
#[derive(Clone, Copy, Debug, PartialEq, Eq)]
pub struct Size {
    pub(crate) states: usize,
    pub(crate) marks: usize,
    ghost limits: { Limits states marks },
}
