ghost use Rattle.grades.specs.declared.words.Words.TheVariants.{Never, Sure};
ghost use Rattle.std.specs.Prelude.{◌≡◌, Some, nat_le};
ghost use Rattle.grades.specs.Levels.{word_level, word_opposite, own_code, level_of_code};
ghost use Rattle.grades.specs.Names.{word_name};
ghost use Rattle.grades.specs.Codes.{encoded, word_at};
ghost use Rattle.std.proofs.Common.{rules};

use crate::Scale;
use std::fmt;

/// A grade in seven words.
#[derive(Clone, Copy, Debug, PartialEq, Eq, PartialOrd, Ord)]
pub enum Words {
    Never,
    Hardly,
    Seldom,
    Even,
    Often,
    Mostly,
    Sure,
}

impl fmt::Display for Words {
    ghost output = { λ word. Some (word_name word) };

    fn fmt<W: fmt::Write>(&self, f: &mut fmt::Formatter<W>) -> fmt::Result {
        f.write_str(match self {
            Words::Never => "never",
            Words::Hardly => "hardly",
            Words::Seldom => "seldom",
            Words::Even => "even",
            Words::Often => "often",
            Words::Mostly => "mostly",
            Words::Sure => "sure",
        })
    }
}

impl Scale for Words {
    ghost level = { word_level };

    ghost height = { 6 };

    ghost number = { 2 };

    ghost code = { own_code };

    ghost decode = { level_of_code 6 };

    ghost order = { λ x y. nat_le (word_level x) (word_level y) };

    ghost floor = { Never };

    ghost top = { Sure };

    ghost opposite = { word_opposite };

    ghost positive = { Prim.search rules };

    ghost limited = { Prim.search rules };

    ghost within = { Prim.search rules };

    ghost ordered = { Prim.search rules };

    ghost total = { Prim.search rules };

    ghost floors = { Prim.search rules };

    ghost tops = { Prim.search rules };

    ghost opposites = { Prim.search rules };

    ghost codes = { Prim.search rules };

    ghost decodes = { Prim.search rules };

    ghost leads_back = { Prim.search rules };

    ghost encodes = { encoded word_level 6 word_at };

    fn number() -> u8 {
        2
    }

    fn height() -> u16 {
        6
    }

    fn at_most(self, other: Words) -> bool {
        self <= other
    }

    fn floor() -> Words {
        Words::Never
    }

    fn top() -> Words {
        Words::Sure
    }

    fn opposite(self) -> Words {
        match self {
            Words::Never => Words::Sure,
            Words::Hardly => Words::Mostly,
            Words::Seldom => Words::Often,
            Words::Even => Words::Even,
            Words::Often => Words::Seldom,
            Words::Mostly => Words::Hardly,
            Words::Sure => Words::Never,
        }
    }

    fn code(self) -> u16 {
        self as u16
    }

    fn of_code(wanted: u16) -> Option<Words> {
        match wanted {
            0 => Some(Words::Never),
            1 => Some(Words::Hardly),
            2 => Some(Words::Seldom),
            3 => Some(Words::Even),
            4 => Some(Words::Often),
            5 => Some(Words::Mostly),
            6 => Some(Words::Sure),
            _ => None,
        }
    }
}
