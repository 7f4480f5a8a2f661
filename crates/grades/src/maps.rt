ghost use Rattle.std.specs.Prelude.{true, refl};
ghost use Rattle.grades.specs.Maps.{words_to_thousandths, thousandths_to_words, word_spans, thousandth_spans};
ghost use Rattle.grades.specs.Spans.{spans_ordered};
ghost use Rattle.std.proofs.Common.{rules};

use crate::{GradeMap, Thousandths, Words};

/// Words as thousandths: 0, 100, 300, 500, 700, 900, 1,000.
#[derive(Clone, Copy, Debug)]
pub struct WordsToThousandths;

impl GradeMap for WordsToThousandths {
    type From = Words;

    type To = Thousandths;

    ghost table = { λ _. words_to_thousandths };

    ghost keeps = { λ _. true };

    ghost ordered = { λ f p q l _. spans_ordered 0 word_spans 1000 refl p q l };

    ghost floors = { Prim.search rules };

    ghost tops = { Prim.search rules };

    ghost opposites = { Prim.search rules };

    fn image(&self, grade: Words) -> Thousandths {
        match grade {
            Words::Never => Thousandths(0),
            Words::Hardly => Thousandths(100),
            Words::Seldom => Thousandths(300),
            Words::Even => Thousandths(500),
            Words::Often => Thousandths(700),
            Words::Mostly => Thousandths(900),
            Words::Sure => Thousandths(1000),
        }
    }

    fn keeps_opposites(&self) -> bool {
        true
    }
}

/// Thousandths as words: each word stands for a span of thousandths.
#[derive(Clone, Copy, Debug)]
pub struct ThousandthsToWords;

impl GradeMap for ThousandthsToWords {
    type From = Thousandths;

    type To = Words;

    ghost table = { λ _. thousandths_to_words };

    ghost keeps = { λ _. true };

    ghost ordered = { λ f p q l _. spans_ordered 0 thousandth_spans 6 refl p q l };

    ghost floors = { Prim.search rules };

    ghost tops = { Prim.search rules };

    ghost opposites = { Prim.search rules };

    fn image(&self, grade: Thousandths) -> Words {
        match grade.0 {
            0 => Words::Never,
            1..=199 => Words::Hardly,
            200..=399 => Words::Seldom,
            400..=600 => Words::Even,
            601..=800 => Words::Often,
            801..=999 => Words::Mostly,
            _ => Words::Sure,
        }
    }

    fn keeps_opposites(&self) -> bool {
        true
    }
}
