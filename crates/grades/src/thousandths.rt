ghost use Rattle.std.specs.Prelude.{◌≡◌, Some, decimal, nat_le};
ghost use Rattle.grades.specs.Levels.{thousandths_level, thousandths_opposite, own_code, level_of_code};
ghost use Rattle.std.proofs.Common.{rules};
ghost use Rattle.grades.specs.Codes.{encoded, thousandths_at};

use crate::Scale;
use std::fmt;

/// A grade in thousandths: any 16-bit number, which counts as 1,000 where it is above.
#[derive(Clone, Copy, Debug)]
pub struct Thousandths(pub u16);

impl Thousandths {
    /// What the number counts as.
    fn counted(self) -> u16
        ensures { result ≡ thousandths_level self }
    {
        self.0.min(1000)
    }
}

impl fmt::Display for Thousandths {
    ghost output = { λ grade. Some (decimal (thousandths_level grade)) };

    fn fmt<W: fmt::Write>(&self, f: &mut fmt::Formatter<W>) -> fmt::Result {
        let counted = self.counted();
        write!(f, "{counted}")
    }
}

impl Scale for Thousandths {
    ghost level = { thousandths_level };

    ghost height = { 1000 };

    ghost number = { 1 };

    ghost code = { own_code };

    ghost decode = { level_of_code 1000 };

    ghost order = { λ x y. nat_le (thousandths_level x) (thousandths_level y) };

    ghost floor = { record { 0 = 0 } };

    ghost top = { record { 0 = 1000 } };

    ghost opposite = { thousandths_opposite };

    ghost positive = { Prim.search rules };

    ghost limited = { Prim.search rules };

    ghost within = { Prim.search rules };

    ghost ordered = { Prim.search rules };

    ghost total = { Prim.search rules };

    ghost floors = { Prim.search rules };

    ghost tops = { Prim.search rules };

    ghost opposites = { Prim.search rules };

    ghost codes = { Prim.search rules };

    ghost decodes = { Prim.search rules };

    ghost leads_back = { Prim.search rules };

    ghost encodes = { encoded thousandths_level 1000 thousandths_at };

    fn number() -> u8 {
        1
    }

    fn height() -> u16 {
        1000
    }

    fn at_most(self, other: Thousandths) -> bool {
        self.counted() <= other.counted()
    }

    fn floor() -> Thousandths {
        Thousandths(0)
    }

    fn top() -> Thousandths {
        Thousandths(1000)
    }

    fn opposite(self) -> Thousandths {
        Thousandths(1000 - self.counted())
    }

    fn code(self) -> u16 {
        self.counted()
    }

    fn of_code(wanted: u16) -> Option<Thousandths> {
        match wanted {
            0..=1000 => Some(Thousandths(wanted)),
            _ => None,
        }
    }
}
