use grades::Scale;

/// A sheet in lent memory. Whatever it holds is lawful: a size outside the limits counts as the
/// nearest limit, and a cell past the end of the memory reads as the floor.
// no invariant: a sheet with a ghost field could not be taken by value and then drawn on
#[derive(Drop)]
pub struct Sheet<'a, S: Scale> {
    pub(crate) n: usize,
    pub(crate) m: usize,
    pub(crate) grades: &'a mut [S],
}
