ghost use Rattle.grades.specs.declared.yes_no.YesNo.TheVariants.{No, Yes};
ghost use Rattle.std.specs.Prelude.{◌≡◌, Some, nat_le};
ghost use Rattle.grades.specs.Names.{yes_no_name};
ghost use Rattle.grades.specs.Levels.{yes_no_level, yes_no_opposite, own_code, level_of_code};
ghost use Rattle.grades.specs.Codes.{encoded, answer_at};
ghost use Rattle.std.proofs.Common.{rules};

use crate::Scale;
use std::fmt;

/// A grade that is yes or no.
#[derive(Clone, Copy, Debug, PartialEq, Eq, PartialOrd, Ord)]
pub enum YesNo {
    No,
    Yes,
}

impl fmt::Display for YesNo {
    ghost output = { λ answer. Some (yes_no_name answer) };

    fn fmt<W: fmt::Write>(&self, f: &mut fmt::Formatter<W>) -> fmt::Result {
        f.write_str(match self {
            YesNo::No => "no",
            YesNo::Yes => "yes",
        })
    }
}

impl Scale for YesNo {
    ghost level = { yes_no_level };

    ghost height = { 1 };

    ghost number = { 3 };

    ghost code = { own_code };

    ghost decode = { level_of_code 1 };

    ghost order = { λ x y. nat_le (yes_no_level x) (yes_no_level y) };

    ghost floor = { No };

    ghost top = { Yes };

    ghost opposite = { yes_no_opposite };

    ghost positive = { Prim.search rules };

    ghost limited = { Prim.search rules };

    ghost within = { Prim.search rules };

    ghost ordered = { Prim.search rules };

    ghost total = { Prim.search rules };

    ghost floors = { Prim.search rules };

    ghost tops = { Prim.search rules };

    ghost opposites = { Prim.search rules };

    ghost codes = { Prim.search rules };

    ghost decodes = { Prim.search rules };

    ghost leads_back = { Prim.search rules };

    ghost encodes = { encoded yes_no_level 1 answer_at };

    fn number() -> u8 {
        3
    }

    fn height() -> u16 {
        1
    }

    fn at_most(self, other: YesNo) -> bool {
        self <= other
    }

    fn floor() -> YesNo {
        YesNo::No
    }

    fn top() -> YesNo {
        YesNo::Yes
    }

    fn opposite(self) -> YesNo {
        match self {
            YesNo::No => YesNo::Yes,
            YesNo::Yes => YesNo::No,
        }
    }

    fn code(self) -> u16 {
        self as u16
    }

    fn of_code(wanted: u16) -> Option<YesNo> {
        match wanted {
            0 => Some(YesNo::No),
            1 => Some(YesNo::Yes),
            _ => None,
        }
    }
}
