ghost use Rattle.std.specs.Prelude.{◌≡◌, true};
ghost use Rattle.sheets.specs.Cells.{is_inside, cell_index};

use crate::Size;

/// What a grade is of: a step from a state to a state, or a mark in a state.
#[derive(Clone, Copy)]
pub(crate) enum Cell {
    Step { from: usize, to: usize },
    Mark { state: usize, which: usize },
}

impl Size {
    /// Whether there is such a cell.
    pub(crate) fn has(self, cell: Cell) -> bool
        ensures { result ≡ is_inside self cell }
    {
        match cell {
            Cell::Step { from, to } => from < self.states && to < self.states,
            Cell::Mark { state, which } => state < self.states && which < self.marks,
        }
    }

    /// Where in a sheet's memory a cell lies.
    pub(crate) fn index(self, cell: Cell) -> usize
        requires { is_inside self cell ≡ true }
        ensures { result ≡ cell_index self cell }
    {
        let row = self.states + self.marks;
        match cell {
            Cell::Step { from, to } => from * row + to,
            Cell::Mark { state, which } => state * row + (self.states + which),
        }
    }
}
