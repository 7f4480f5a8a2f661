ghost use Rattle.std.specs.Prelude.{◌≡◌, ◌+◌, ◌*◌, MatchResult};
ghost use Rattle.std.specs.Result.{result_err};
ghost use Rattle.sheets.specs.Refusals.{size_refusal};
ghost use Rattle.sheets.specs.Sheets.{Whole};
ghost use Rattle.sheets.specs.Tables.{Bounded};

use crate::{Size, SizeRefusal, Structure};

impl Size {
    /// Passes n states and m marks for a sheet in memory of so many cells.
    pub fn new(n: usize, m: usize, cells: usize) -> Result<Size, SizeRefusal>
        ensures refused { result_err result ≡ size_refusal n m cells }
        ensures passed { MatchResult result (λ size. (size.states ≡ n) × (size.marks ≡ m) × Whole n m cells) (λ _. Whole n m cells → ⊥) }
    {
        if n < 1 || n > 64 {
            return Err(SizeRefusal::States);
        }
        if m > 16 {
            return Err(SizeRefusal::Marks);
        }
        if cells != n * (n + m) {
            return Err(SizeRefusal::Memory);
        }
        Ok(Size {
            states: n,
            marks: m,
        })
    }

    /// The size of a structure.
    pub fn of<K: Structure>(structure: &mut K) -> Size
        ensures states { result.states ≡ (K.Structure.tables structure.old).states }
        ensures marks { result.marks ≡ (K.Structure.tables structure.old).marks }
        ensures same { structure.new ≡ structure.old }
        ensures bounded { Bounded K.Grade.Scale.height (K.Structure.tables structure.old) }
    {
        let states = structure.states();
        let marks = structure.marks();
        Size { states, marks }
    }

    /// How many steps and marks there are.
    pub fn cells(self) -> usize
        ensures { result ≡ self.states * (self.states + self.marks) }
    {
        let n = self.states;
        n * (n + self.marks)
    }

    pub fn states(self) -> usize
        ensures { result ≡ self.states }
    {
        self.states
    }

    pub fn marks(self) -> usize
        ensures { result ≡ self.marks }
    {
        self.marks
    }
}
