use files::{
    FileCause, FileFault, GradeFault, RecordCause, RecordFault, ThousandthsView, WordsView,
    YesNoView, check as check_file, save,
};
use grades::{Scale, Thousandths, Words, WordsToThousandths, YesNo};
use sheets::{Sheet, Size, Structure, Translated};
use std::process::Abort;
use std::test::Fail;

/// The number and the position of the first fault.
fn fault<S: Scale>(bytes: &[u8]) -> Option<(u8, usize)> {
    let fault = check_file::<S>(bytes).err()?;
    Some((fault.number(), fault.position))
}

/// A file of two states and one mark: the step 0 to 0 and the mark in state 0 at code 1.
fn small<S: Scale>() -> [u8; 20] {
    [
        b'W',
        b'S',
        b'H',
        1,
        0,
        S::number(),
        2,
        1,
        2,
        0,
        1,
        0,
        0,
        1,
        0,
        2,
        0,
        0,
        1,
        0,
    ]
}

/// Another byte at a position.
type Change = (usize, u8);

/// Changes of the small file, and the number and the position of its fault then.
type Case = (&'static [Change], Option<(u8, usize)>);

const HEADERS: [Case; 28] = [
    (&[], None),
    (&[(0, 119)], Some((17, 0))),
    (&[(1, 72)], Some((17, 0))),
    (&[(2, 83)], Some((17, 0))),
    (&[(3, 0)], Some((18, 3))),
    (&[(3, 2)], Some((18, 3))),
    (&[(3, 0), (4, 1)], Some((18, 3))),
    (&[(4, 1)], Some((18, 3))),
    (&[(2, 0), (3, 2)], Some((17, 0))),
    (&[(3, 2), (5, 255)], Some((18, 3))),
    (&[(5, 0)], Some((19, 5))),
    (&[(5, 4)], Some((19, 5))),
    (&[(5, 255), (6, 65)], Some((19, 5))),
    (&[(6, 0)], Some((4, 6))),
    (&[(6, 1)], None),
    (&[(6, 64)], None),
    (&[(6, 65)], Some((4, 6))),
    (&[(7, 16)], None),
    (&[(7, 17)], Some((4, 7))),
    (&[(6, 65), (7, 17)], Some((4, 6))),
    (&[(6, 0), (8, 3)], Some((4, 6))),
    (&[(7, 17), (8, 3)], Some((4, 7))),
    (&[(5, 255), (6, 0)], Some((19, 5))),
    (&[(7, 17), (9, 255)], Some((4, 7))),
    (&[(6, 0), (9, 255)], Some((4, 6))),
    (&[(1, 0), (6, 0)], Some((17, 0))),
    (&[(0, 119), (1, 0), (6, 0)], Some((17, 0))),
    (&[(2, 0), (9, 255)], Some((17, 0))),
];

const RECORDS: [Case; 36] = [
    (&[(8, 1)], Some((20, 8))),
    (&[(8, 3)], Some((20, 8))),
    (&[(9, 1)], Some((20, 8))),
    (&[(8, 1), (10, 0)], Some((20, 8))),
    (&[(10, 0)], Some((21, 10))),
    (&[(10, 3)], Some((21, 10))),
    (&[(15, 3)], Some((21, 15))),
    (&[(11, 1)], None),
    (&[(11, 2)], Some((2, 11))),
    (&[(12, 1)], None),
    (&[(12, 2)], Some((2, 12))),
    (&[(16, 2)], Some((2, 16))),
    (&[(17, 1)], Some((3, 17))),
    (&[(7, 0)], Some((3, 17))),
    (&[(10, 0), (11, 2)], Some((21, 10))),
    (&[(11, 2), (12, 2)], Some((2, 11))),
    (&[(12, 2), (15, 3)], Some((2, 12))),
    (&[(15, 1)], Some((22, 15))),
    (&[(15, 1), (17, 1)], None),
    (&[(15, 1), (16, 1)], None),
    (&[(12, 1), (15, 1)], Some((22, 15))),
    (&[(11, 1), (15, 1), (17, 1)], Some((22, 15))),
    (&[(10, 2), (15, 1), (16, 1)], Some((22, 15))),
    (&[(15, 1), (17, 2)], Some((2, 17))),
    (&[(15, 1), (18, 0)], Some((22, 15))),
    (&[(13, 0)], Some((23, 13))),
    (&[(18, 0)], Some((23, 18))),
    (&[(13, 255), (14, 255)], Some((1, 13))),
    (&[(14, 128)], Some((1, 13))),
    (&[(19, 128)], Some((1, 18))),
    (&[(13, 0), (15, 3)], Some((23, 13))),
    (&[(15, 0)], Some((21, 15))),
    (&[(10, 2), (15, 1), (16, 2)], Some((2, 16))),
    (&[(11, 1), (15, 1), (17, 2)], Some((2, 17))),
    (&[(10, 2), (11, 1), (17, 1)], Some((3, 17))),
    (&[(15, 1), (19, 128)], Some((22, 15))),
];

fn change(file: &mut [u8], changes: &[Change]) {
    for &(position, byte) in changes {
        if let Some(place) = file.get_mut(position) {
            *place = byte;
        }
    }
}

/// The fault of the small file with other bytes at some positions.
fn damaged<S: Scale>(changes: &[Change]) -> Option<(u8, usize)> {
    let mut file = small::<S>();
    change(&mut file, changes);
    fault::<S>(&file)
}

fn as_listed<S: Scale>(rt: &impl Abort, cases: &[Case]) {
    for (changes, wanted) in cases {
        assert_eq!(rt; damaged::<S>(changes), *wanted);
    }
}

/// The small file cut off at each length.
fn cut_off<S: Scale>(rt: &impl Abort) {
    let file = small::<S>();
    for length in 0..20 {
        let wanted = if length < 10 { (17, 0) } else { (20, 8) };
        assert_eq!(rt; fault::<S>(&file[0..length]), Some(wanted));
    }
}

/// The highest code, and the one after it.
fn codes_at_the_top<S: Scale>(rt: &impl Abort) {
    let [low, high] = S::height().to_le_bytes();
    let [past_low, past_high] = S::height().saturating_add(1).to_le_bytes();
    assert_eq!(rt; damaged::<S>(&[(13, low), (14, high)]), None);
    assert_eq!(rt;
        damaged::<S>(&[(13, past_low), (14, past_high)]),
        Some((1, 13))
    );
    assert_eq!(rt;
        damaged::<S>(&[(18, past_low), (19, past_high)]),
        Some((1, 18))
    );
}

/// A file of one scale, asked for as another.
fn other_scales<S: Scale>(rt: &impl Abort) {
    for number in [1, 2, 3] {
        let wanted = if number == S::number() {
            None
        } else {
            Some((19, 5))
        };
        assert_eq!(rt; damaged::<S>(&[(5, number)]), wanted);
    }
}

fn every_fault<S: Scale>(rt: &impl Abort) {
    as_listed::<S>(rt, &HEADERS);
    as_listed::<S>(rt, &RECORDS);
    cut_off::<S>(rt);
    codes_at_the_top::<S>(rt);
    other_scales::<S>(rt);
}

#[test]
fn faults_in_thousandths(rt: HostRuntime) {
    every_fault::<Thousandths>(&rt);
}

#[test]
fn faults_in_words(rt: HostRuntime) {
    every_fault::<Words>(&rt);
}

#[test]
fn faults_in_yes_and_no(rt: HostRuntime) {
    every_fault::<YesNo>(&rt);
}

/// What the layers of a fault hold: the record's index and the code.
fn layers(fault: FileFault) -> Option<(u16, u16)> {
    let FileCause::Record(RecordFault { index, cause }) = fault.cause else {
        return None;
    };
    let RecordCause::Grade(GradeFault::NoGrade(code) | GradeFault::Floor(code)) = cause else {
        return None;
    };
    Some((index, code))
}

#[test]
fn three_layers(rt: HostRuntime) -> Result<(), Fail> {
    let mut file = small::<Thousandths>();
    file[18] = 233;
    file[19] = 3;
    let Err(fault) = ThousandthsView::open(&file) else {
        return Err(Fail::new("opened"));
    };
    assert_eq!(rt; layers(fault), Some((1, 1001)));
    assert_eq!(rt; (fault.number(), fault.position), (1, 18));
    Ok(())
}

/// The codes of the grades that a structure of two states and one mark reads.
fn codes_read<K: Structure>(structure: &mut K) -> [u16; 6] {
    [
        structure.step_grade(0, 0).code(),
        structure.step_grade(0, 1).code(),
        structure.step_grade(1, 0).code(),
        structure.step_grade(1, 1).code(),
        structure.mark_grade(0, 0).code(),
        structure.mark_grade(1, 0).code(),
    ]
}

fn outside<K: Structure>(rt: &impl Abort, structure: &mut K) {
    assert_eq!(rt; (structure.states(), structure.marks()), (2, 1));
    for at in [2, 64, 256, usize::MAX] {
        assert_eq!(rt; structure.step_grade(at, 0).code(), 0);
        assert_eq!(rt; structure.step_grade(0, at).code(), 0);
        assert_eq!(rt; structure.mark_grade(at, 0).code(), 0);
        assert_eq!(rt; structure.mark_grade(0, at).code(), 0);
    }
}

/// The file of the bearing sheet.
const BEARING: [u8; 55] = [
    0x57, 0x53, 0x48, 0x01, 0x00, 0x01, 0x03, 0x02, 0x09, 0x00, 0x01, 0x00, 0x00, 0xBC, 0x02, 0x01,
    0x00, 0x01, 0x84, 0x03, 0x01, 0x01, 0x01, 0x58, 0x02, 0x01, 0x01, 0x02, 0x20, 0x03, 0x01, 0x02,
    0x02, 0x58, 0x02, 0x02, 0x00, 0x00, 0xE8, 0x03, 0x02, 0x01, 0x00, 0xF4, 0x01, 0x02, 0x01, 0x01,
    0x2C, 0x01, 0x02, 0x02, 0x01, 0xE8, 0x03,
];

/// The fault of the bearing file with another byte at a position.
fn damaged_bearing(position: usize, byte: u8) -> Option<(u8, usize)> {
    let mut file = BEARING;
    change(&mut file, &[(position, byte)]);
    fault::<Thousandths>(&file)
}

#[test]
fn the_bearing_file(rt: HostRuntime) {
    assert_eq!(rt; damaged_bearing(3, 1), None);
    assert_eq!(rt; damaged_bearing(3, 2), Some((18, 3)));
    assert_eq!(rt; damaged_bearing(17, 0), Some((22, 15)));
    assert_eq!(rt; damaged_bearing(53, 0xE9), Some((1, 53)));
}

#[test]
fn views_on_each_scale(rt: HostRuntime) -> Result<(), Fail> {
    let in_thousandths = small::<Thousandths>();
    let mut thousandths = ThousandthsView::open(&in_thousandths)?;
    assert_eq!(rt; codes_read(&mut thousandths), [1, 0, 0, 0, 1, 0]);
    outside(&rt, &mut thousandths);
    let in_words = small::<Words>();
    let mut words = WordsView::open(&in_words)?;
    assert_eq!(rt; codes_read(&mut words), [1, 0, 0, 0, 1, 0]);
    outside(&rt, &mut words);
    let mut translated = Translated::new(words, WordsToThousandths);
    assert_eq!(rt; codes_read(&mut translated), [100, 0, 0, 0, 100, 0]);
    let in_yes_no = small::<YesNo>();
    let mut yes_no = YesNoView::open(&in_yes_no)?;
    assert_eq!(rt; codes_read(&mut yes_no), [1, 0, 0, 0, 1, 0]);
    outside(&rt, &mut yes_no);
    Ok(())
}

/// A grade for each step and mark of the largest sheet, in which no two neighbours are equal.
fn draw_largest(rt: &impl Abort, sheet: &mut Sheet<Thousandths>) {
    for state in 0..64 {
        for to in 0..64 {
            let grade = Thousandths(1 + (state * 7 + to) as u16);
            assert!(rt; sheet.draw(state, to, grade).is_ok());
        }
        for which in 0..16 {
            let grade = Thousandths(900 - (state + which) as u16);
            assert!(rt; sheet.mark(state, which, grade).is_ok());
        }
    }
}

fn same_largest<K: Structure>(rt: &impl Abort, structure: &mut K) {
    for state in 0..64 {
        for to in 0..64 {
            assert_eq!(rt;
                structure.step_grade(state, to).code(),
                1 + (state * 7 + to) as u16
            );
        }
        for which in 0..16 {
            assert_eq!(rt;
                structure.mark_grade(state, which).code(),
                900 - (state + which) as u16
            );
        }
    }
}

#[test]
fn the_largest_file_opens(rt: HostRuntime) -> Result<(), Fail> {
    let mut memory = [Thousandths(0); 5120];
    let size = Size::new(64, 16, 5120)?;
    let mut sheet = Sheet::new(size, &mut memory);
    draw_largest(&rt, &mut sheet);
    let mut out = [0; 25615];
    assert!(rt; save(&mut sheet, &mut out).is_ok());
    let mut view = ThousandthsView::open(&out[0..25610])?;
    same_largest(&rt, &mut view);
    let mut again = [0; 25610];
    assert!(rt; save(&mut view, &mut again).is_ok());
    assert!(rt; again[0..25610] == out[0..25610]);
    assert_eq!(rt; fault::<Thousandths>(&out), Some((20, 8)));
    out[8] = 1;
    assert_eq!(rt; fault::<Thousandths>(&out), Some((20, 8)));
    assert_eq!(rt; fault::<Thousandths>(&out[0..25610]), Some((20, 8)));
    Ok(())
}
