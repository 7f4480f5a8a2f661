ghost use Rattle.std.specs.Prelude.{◌≡◌};
ghost use Rattle.sheets.specs.Tables.{Tables, Bounded};

use grades::Scale;

/// States, with a grade for each step from one to another and for each mark in each.
/// A question is answered by the structure's tables, and changes nothing.
// `&mut self`: a structure may keep what it likes for its answers, so each question says that it changes nothing
pub trait Structure {
    type Grade: Scale;

    ghost tables: { Self → Tables };

    fn states(&mut self) -> usize
        ensures value { result ≡ (tables self.old).states }
        ensures same { self.new ≡ self.old }
        ensures bounded { Bounded Self.Grade.Scale.height (tables self.old) };

    fn marks(&mut self) -> usize
        ensures value { result ≡ (tables self.old).marks }
        ensures same { self.new ≡ self.old }
        ensures bounded { Bounded Self.Grade.Scale.height (tables self.old) };

    fn step_grade(&mut self, from: usize, to: usize) -> Self::Grade
        ensures value { Self.Grade.Scale.level result ≡ (tables self.old).step from to }
        ensures same { self.new ≡ self.old }
        ensures bounded { Bounded Self.Grade.Scale.height (tables self.old) };

    fn mark_grade(&mut self, state: usize, which: usize) -> Self::Grade
        ensures value { Self.Grade.Scale.level result ≡ (tables self.old).mark state which }
        ensures same { self.new ≡ self.old }
        ensures bounded { Bounded Self.Grade.Scale.height (tables self.old) };
}
