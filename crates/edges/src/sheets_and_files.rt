use files::save;
use grades::{Cut, Refusal, Scale, Thousandths, ThousandthsToWords};
use sheets::{Sheet, Size, Structure, Translated};
use std::process::Abort;
use std::test::Fail;

/// The number that a call is refused with.
// callers are told the numbers, so the tests compare them and not the enums
fn number<T: Drop, R: Refusal>(answer: Result<T, R>) -> Option<u8> {
    match answer {
        Ok(_) => None,
        Err(refusal) => Some(refusal.number()),
    }
}

fn refused(n: usize, m: usize, cells: usize) -> Option<u8> {
    number(Size::new(n, m, cells))
}

fn drawn(sheet: &mut Sheet<Thousandths>, from: usize, to: usize) -> Option<u8> {
    number(sheet.draw(from, to, Thousandths(1)))
}

fn marked(sheet: &mut Sheet<Thousandths>, state: usize, which: usize) -> Option<u8> {
    number(sheet.mark(state, which, Thousandths(1)))
}

/// The length of the file, or the number of the refusal.
fn saved<K: Structure>(structure: &mut K, out: &mut [u8]) -> Result<usize, u8> {
    save(structure, out).map_err(|refusal| refusal.number())
}

/// What a draw and a mark are refused with over this memory.
fn over(size: Size, memory: &mut [Thousandths]) -> (Option<u8>, Option<u8>) {
    let mut sheet = Sheet::new(size, memory);
    (drawn(&mut sheet, 0, 0), marked(&mut sheet, 9, 9))
}

fn draw_all(rt: &impl Abort, sheet: &mut Sheet<Thousandths>) {
    for state in 0..64 {
        for to in 0..64 {
            assert_eq!(rt; drawn(sheet, state, to), None);
        }
        for which in 0..16 {
            assert_eq!(rt; marked(sheet, state, which), None);
        }
    }
}

#[test]
fn sizes(rt: HostRuntime) {
    assert_eq!(rt; refused(0, 0, 0), Some(4));
    assert_eq!(rt; refused(1, 0, 1), None);
    assert_eq!(rt; refused(64, 16, 5120), None);
    assert_eq!(rt; refused(65, 16, 5265), Some(4));
    assert_eq!(rt; refused(64, 17, 5184), Some(4));
    assert_eq!(rt; refused(usize::MAX, usize::MAX, 0), Some(4));
    assert_eq!(rt; refused(3, 2, 14), Some(5));
    assert_eq!(rt; refused(3, 2, 15), None);
    assert_eq!(rt; refused(3, 2, 16), Some(5));
    assert_eq!(rt; refused(0, 17, 3), Some(4));
}

#[test]
fn outside_the_numbers(rt: HostRuntime) -> Result<(), Fail> {
    let mut memory = [Thousandths(7); 15];
    let size = Size::new(3, 2, 15)?;
    let mut sheet = Sheet::new(size, &mut memory);
    for at in [3, 64, usize::MAX] {
        assert_eq!(rt; drawn(&mut sheet, at, 0), Some(2));
        assert_eq!(rt; drawn(&mut sheet, 0, at), Some(2));
        assert_eq!(rt; marked(&mut sheet, at, 2), Some(2));
        assert_eq!(rt; marked(&mut sheet, 2, at), Some(3));
        assert_eq!(rt; sheet.step_grade(at, 0).code(), 0);
        assert_eq!(rt; sheet.step_grade(0, at).code(), 0);
        assert_eq!(rt; sheet.mark_grade(at, 0).code(), 0);
        assert_eq!(rt; sheet.mark_grade(0, at).code(), 0);
    }
    for from in 0..3 {
        for to in 0..3 {
            assert_eq!(rt; sheet.step_grade(from, to).code(), 0);
        }
        assert_eq!(rt; sheet.mark_grade(from, 0).code(), 0);
        assert_eq!(rt; sheet.mark_grade(from, 1).code(), 0);
    }
    assert_eq!(rt; drawn(&mut sheet, 2, 2), None);
    assert_eq!(rt; marked(&mut sheet, 2, 1), None);
    assert_eq!(rt; sheet.step_grade(2, 2).code(), 1);
    assert_eq!(rt; sheet.mark_grade(2, 1).code(), 1);
    Ok(())
}

#[test]
fn memory_of_another_length(rt: HostRuntime) -> Result<(), Fail> {
    let mut memory = [Thousandths(7); 16];
    let size = Size::new(3, 2, 15)?;
    assert_eq!(rt; over(size, &mut memory[0..0]), (Some(5), Some(5)));
    assert_eq!(rt; over(size, &mut memory[0..14]), (Some(5), Some(5)));
    assert_eq!(rt; over(size, &mut memory[0..15]), (None, Some(2)));
    assert_eq!(rt; over(size, &mut memory[0..16]), (Some(5), Some(5)));
    Ok(())
}

#[test]
fn room_for_the_file(rt: HostRuntime) -> Result<(), Fail> {
    let mut memory = [Thousandths(0); 1];
    let size = Size::new(1, 0, 1)?;
    let mut sheet = Sheet::new(size, &mut memory);
    let mut out = [9; 16];
    assert_eq!(rt; saved(&mut sheet, &mut out[0..9]), Err(24));
    assert_eq!(rt; out, [9; 16]);
    assert_eq!(rt; saved(&mut sheet, &mut out[0..10]), Ok(10));
    assert_eq!(rt; out, [87, 83, 72, 1, 0, 1, 1, 0, 0, 0, 9, 9, 9, 9, 9, 9]);
    assert!(rt; sheet.draw(0, 0, Thousandths(1001)).is_ok());
    assert_eq!(rt; saved(&mut sheet, &mut out[0..14]), Err(24));
    assert_eq!(rt; out, [87, 83, 72, 1, 0, 1, 1, 0, 0, 0, 9, 9, 9, 9, 9, 9]);
    let mut again = out;
    assert_eq!(rt; saved(&mut sheet, &mut again[0..15]), Ok(15));
    assert_eq!(rt;
        again,
        [87, 83, 72, 1, 0, 1, 1, 0, 1, 0, 1, 0, 0, 232, 3, 9]
    );
    Ok(())
}

#[test]
fn saved_on_each_scale(rt: HostRuntime) -> Result<(), Fail> {
    let mut memory = [Thousandths(0); 2];
    let size = Size::new(1, 1, 2)?;
    let mut sheet = Sheet::new(size, &mut memory);
    assert!(rt; sheet.mark(0, 0, Thousandths(700)).is_ok());
    let mut out = [0; 15];
    let mut words = Translated::new(sheet, ThousandthsToWords);
    assert_eq!(rt; saved(&mut words, &mut out[0..15]), Ok(15));
    assert_eq!(rt; out, [87, 83, 72, 1, 0, 2, 1, 1, 1, 0, 2, 0, 0, 4, 0]);
    let cut = Cut::at(grades::Words::Even)?;
    let mut answers = Translated::new(words, cut);
    assert_eq!(rt; saved(&mut answers, &mut out[0..15]), Ok(15));
    assert_eq!(rt; out, [87, 83, 72, 1, 0, 3, 1, 1, 1, 0, 2, 0, 0, 1, 0]);
    Ok(())
}

#[test]
fn the_largest_file(rt: HostRuntime) -> Result<(), Fail> {
    let mut memory = [Thousandths(0); 5120];
    let size = Size::new(64, 16, 5120)?;
    let mut sheet = Sheet::new(size, &mut memory);
    draw_all(&rt, &mut sheet);
    let mut out = [0; 25610];
    assert_eq!(rt; saved(&mut sheet, &mut out[0..25609]), Err(24));
    assert_eq!(rt; saved(&mut sheet, &mut out[0..25610]), Ok(25610));
    assert!(rt; out[8..10] == [0, 20]);
    assert!(rt; out[25605..25610] == [2, 63, 15, 1, 0]);
    Ok(())
}
