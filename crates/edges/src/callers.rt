// What a caller may write over sheets, views, structures of its own and refusals. Each of these functions is proved:
// that it can be is what they are here for.
ghost use Rattle.std.specs.Prelude.{◌+◌, ◌/◌};
ghost use Rattle.sheets.specs.Tables.{Bounded, all_floor};

use files::{ThousandthsView, WordsView, save};
use grades::{Scale, Thousandths, ThousandthsToWords, Words};
use sheets::{Sheet, Size, Structure, Translated};
use std::test::Fail;

/// A sheet by value, drawn on and saved.
fn drawn_and_saved(sheet: Sheet<Words>, out: &mut [u8]) -> Option<usize> {
    let mut sheet = sheet;
    sheet.draw(0, 0, Words::Even).ok()?;
    save(&mut sheet, out).ok()
}

/// A sheet by value, saved in words.
fn saved_in_words(sheet: Sheet<Thousandths>, out: &mut [u8]) -> Option<usize> {
    let mut words = Translated::new(sheet, ThousandthsToWords);
    save(&mut words, out).ok()
}

/// A view beside memory that is lent.
fn view_and_rest<'a>(
    bytes: &'a [u8],
    rest: &'a mut [u8],
) -> Option<(ThousandthsView<'a>, &'a mut [u8])> {
    let view = ThousandthsView::open(bytes).ok()?;
    Some((view, rest))
}

/// A view beside a sheet.
fn view_and_sheet<'a>(
    bytes: &'a [u8],
    size: Size,
    memory: &'a mut [Words],
) -> Option<(WordsView<'a>, Sheet<'a, Words>)> {
    let view = WordsView::open(bytes).ok()?;
    Some((view, Sheet::new(size, memory)))
}

/// What a question says of the bounds.
fn states_of<'a>(sheet: &mut Sheet<'a, Thousandths>) -> usize
    ensures { Bounded ⟦<Thousandths as Scale>⟧.height (⟦<Sheet<'a, Thousandths> as Structure>⟧.tables sheet.old) }
{
    sheet.states()
}

/// A structure without an invariant: states by a byte, and every grade at the floor.
#[derive(Clone, Copy)]
struct Flat {
    quarters: u8,
}

impl Structure for Flat {
    type Grade = Words;

    ghost tables = { λ flat. all_floor (1 + flat.quarters / 4) 0 6 };

    fn states(&mut self) -> usize {
        1 + usize::from(self.quarters / 4)
    }

    fn marks(&mut self) -> usize {
        usize::from(self.quarters) / 256
    }

    // a byte that is read is known to be one
    fn step_grade(&mut self, _from: usize, _to: usize) -> Words {
        let _quarters = self.quarters;
        Words::Never
    }

    fn mark_grade(&mut self, _state: usize, _which: usize) -> Words {
        let _quarters = self.quarters;
        Words::Never
    }
}

#[test]
fn what_callers_write(rt: HostRuntime) -> Result<(), Fail> {
    let mut out = [0; 15];
    let mut words = [Words::Never; 1];
    let mut numbers = [Thousandths(0); 2];
    assert_eq!(rt;
        drawn_and_saved(Sheet::new(Size::new(1, 0, 1)?, &mut words), &mut out),
        Some(15)
    );
    assert_eq!(rt;
        saved_in_words(Sheet::new(Size::new(1, 1, 2)?, &mut numbers), &mut out),
        Some(10)
    );
    assert_eq!(rt;
        states_of(&mut Sheet::new(Size::new(1, 1, 2)?, &mut numbers)),
        1
    );
    assert_eq!(rt; save(&mut Flat { quarters: 255 }, &mut out).ok(), Some(10));
    assert!(rt; out[6..8] == [64, 0]);
    let mut rest = [0; 3];
    assert!(rt; view_and_rest(&out[..10], &mut rest).is_none());
    assert!(rt; view_and_sheet(&out[..10], Size::new(1, 0, 1)?, &mut words).is_some());
    // no trait is in scope
    assert_eq!(rt;
        ThousandthsView::open(&out[..10])
            .err()
            .map(|fault| fault.number()),
        Some(19)
    );
    Ok(())
}
