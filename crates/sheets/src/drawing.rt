ghost use Rattle.std.specs.Prelude.{◌≡◌, ℕ, ◌+◌, ◌*◌, true, map as mapped, length, MatchResult, slice_index};
ghost use Rattle.std.specs.Result.{result_err};
ghost use Rattle.sheets.specs.Refusals.{draw_refusal, mark_refusal};
ghost use Rattle.sheets.specs.Sheets.{states_of, marks_of, sheet_tables, memory_tables, tables_of, Whole, IsWhole, Kept};
ghost use Rattle.sheets.specs.Cells.{is_inside, level_at, with_level};
ghost use Rattle.sheets.specs.Tables.{Limits, Bounded, all_floor, with_step, with_mark};

use crate::cell::Cell;
use crate::{DrawRefusal, MarkRefusal, Sheet, Size, Structure};
use grades::Scale;

/// Sets the grade of a cell in the memory of a whole sheet.
fn put<S: Scale>(grades: &mut [S], size: Size, cell: Cell, grade: S)
    requires whole { Whole size.states size.marks (length grades.old) }
    requires inside { is_inside size cell ≡ true }
    ensures { memory_tables S.Scale size grades.new ≡ with_level (memory_tables S.Scale size grades.old) cell (S.Scale.level grade) }
{
    grades[size.index(cell)] = grade;
}

/// Sets every grade to the floor.
fn clear<S: Scale>(grades: &mut [S])
    ensures cells { (i : ℕ) → slice_index (mapped S.Scale.level grades.new) i ≡ 0 }
    ensures floors { (n m : ℕ) → Limits n m → sheet_tables (states_of n) (marks_of m) S.Scale.height (mapped S.Scale.level grades.new) ≡ all_floor n m S.Scale.height }
{
    // no `fill`: it asks that a clone cannot fail, which a `Scale` does not promise
    for grade in grades.iter_mut() {
        *grade = S::floor();
    }
}

impl<'a, S: Scale> Sheet<'a, S> {
    /// The size; outside the limits, the nearest limit.
    fn size(&self) -> Size
        ensures states { result.states ≡ states_of self.now.n }
        ensures marks { result.marks ≡ marks_of self.now.m }
        ensures bounded { Bounded S.Scale.height (tables_of S.Scale self.now) }
    {
        Size {
            states: self.n.min(64).max(1),
            marks: self.m.min(16),
        }
    }

    /// The grade of a cell.
    fn read(&self, cell: Cell) -> S
        ensures value { S.Scale.level result ≡ level_at (tables_of S.Scale self.now) cell }
        ensures bounded { Bounded S.Scale.height (tables_of S.Scale self.now) }
    {
        let size = self.size();
        if !size.has(cell) {
            return S::floor();
        }
        match self.grades.get(size.index(cell)) {
            Some(grade) => *grade,
            None => S::floor(),
        }
    }

    /// A sheet of a size that passed for memory of this length, every grade at the floor.
    pub fn new(size: Size, memory: &'a mut [S]) -> Sheet<'a, S>
        ensures n { result.n ≡ size.states }
        ensures m { result.m ≡ size.marks }
        ensures length_same { length result.grades.now ≡ length memory.old }
        ensures memory_same { result.grades.ghost_name ≡ memory.entry.ghost_name }
        ensures whole { length memory.old ≡ size.states * (size.states + size.marks) → IsWhole result }
        ensures cells { (i : ℕ) → slice_index (mapped S.Scale.level result.grades.now) i ≡ 0 }
        ensures floors { tables_of S.Scale result ≡ all_floor size.states size.marks S.Scale.height }
    {
        clear(memory);
        Sheet {
            n: size.states,
            m: size.marks,
            grades: memory,
        }
    }

    /// Sets the grade of one step.
    pub fn draw(&mut self, from: usize, to: usize, grade: S) -> Result<(), DrawRefusal>
        ensures refused { result_err result ≡ draw_refusal self.old.n self.old.m (length self.old.grades.now) from to }
        ensures kept { Kept self.old self.new }
        ensures drawn { MatchResult result
            (λ _. tables_of S.Scale self.new ≡ with_step (tables_of S.Scale self.old) from to (S.Scale.level grade))
            (λ _. self.new ≡ self.old) }
    {
        let Ok(size) = Size::new(self.n, self.m, self.grades.len()) else {
            return Err(DrawRefusal::Memory);
        };
        let step = Cell::Step { from, to };
        if !size.has(step) {
            return Err(DrawRefusal::State);
        }
        put(self.grades, size, step, grade);
        Ok(())
    }

    /// Sets the grade of one mark in one state.
    pub fn mark(&mut self, state: usize, which: usize, grade: S) -> Result<(), MarkRefusal>
        ensures refused { result_err result ≡ mark_refusal self.old.n self.old.m (length self.old.grades.now) state which }
        ensures kept { Kept self.old self.new }
        ensures marked { MatchResult result
            (λ _. tables_of S.Scale self.new ≡ with_mark (tables_of S.Scale self.old) state which (S.Scale.level grade))
            (λ _. self.new ≡ self.old) }
    {
        let Ok(size) = Size::new(self.n, self.m, self.grades.len()) else {
            return Err(MarkRefusal::Memory);
        };
        if state >= size.states {
            return Err(MarkRefusal::State);
        }
        if which >= size.marks {
            return Err(MarkRefusal::Mark);
        }
        put(self.grades, size, Cell::Mark { state, which }, grade);
        Ok(())
    }
}

impl<'a, S: Scale> Structure for Sheet<'a, S> {
    type Grade = S;

    ghost tables = { tables_of S.Scale };

    fn states(&mut self) -> usize {
        self.size().states
    }

    fn marks(&mut self) -> usize {
        self.size().marks
    }

    fn step_grade(&mut self, from: usize, to: usize) -> S {
        self.read(Cell::Step { from, to })
    }

    fn mark_grade(&mut self, state: usize, which: usize) -> S {
        self.read(Cell::Mark { state, which })
    }
}
