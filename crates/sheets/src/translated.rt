ghost use Rattle.std.specs.Prelude.{◌≡◌};
ghost use Rattle.sheets.specs.Tables.{through};

use crate::Structure;
use grades::GradeMap;

/// Another structure, with every grade as a map takes it.
#[derive(Drop)]
pub struct Translated<K, M> {
    below: K,
    map: M,
}

impl<K, M> Translated<K, M> {
    pub fn new(below: K, map: M) -> Translated<K, M>
        ensures below { result.below ≡ below }
        ensures map { result.map ≡ map }
    {
        Translated { below, map }
    }
}

impl<M: GradeMap, K: Structure<Grade = M::From>> Structure for Translated<K, M> {
    type Grade = M::To;

    ghost tables = { λ k. through (M.GradeMap.table k.map) M.To.Scale.height (K.Structure.tables k.below) };

    fn states(&mut self) -> usize {
        self.below.states()
    }

    fn marks(&mut self) -> usize {
        self.below.marks()
    }

    fn step_grade(&mut self, from: usize, to: usize) -> M::To {
        self.map.image(self.below.step_grade(from, to))
    }

    fn mark_grade(&mut self, state: usize, which: usize) -> M::To {
        self.map.image(self.below.mark_grade(state, which))
    }
}
