use grades::{
    Cut, GradeMap, Refusal, Scale, Thousandths, ThousandthsToWords, Words, WordsToThousandths,
    YesNo,
};
use std::test::Fail;

/// The code of the grade that a code leads to.
fn back<S: Scale>(code: u16) -> Option<u16> {
    S::of_code(code).map(|grade| grade.code())
}

#[test]
fn codes(rt: HostRuntime) {
    for code in [0, 1, 6, 1000] {
        assert_eq!(rt; back::<Thousandths>(code), Some(code));
    }
    for code in [1001, 9999, 65535] {
        assert_eq!(rt; back::<Thousandths>(code), None);
    }
    for code in [0, 1] {
        assert_eq!(rt; back::<Words>(code), Some(code));
        assert_eq!(rt; back::<YesNo>(code), Some(code));
    }
    for code in [7, 1000, 1001, 9999, 65535] {
        assert_eq!(rt; back::<Words>(code), None);
        assert_eq!(rt; back::<YesNo>(code), None);
    }
    assert_eq!(rt; back::<Words>(6), Some(6));
    assert_eq!(rt; back::<YesNo>(2), None);
}

#[test]
fn above_a_thousand(rt: HostRuntime) {
    for number in [1000, 1001, 65535] {
        let grade = Thousandths(number);
        assert_eq!(rt; grade.code(), 1000);
        assert_eq!(rt; grade.opposite().code(), 0);
        assert!(rt; Thousandths(1000).at_most(grade));
        assert!(rt; grade.at_most(Thousandths(1000)));
    }
    assert!(rt; !Thousandths(1000).at_most(Thousandths(999)));
}

#[test]
fn spans(rt: HostRuntime) -> Result<(), Fail> {
    let words = [
        (0, 0),
        (1, 1),
        (199, 1),
        (200, 2),
        (399, 2),
        (400, 3),
        (600, 3),
        (601, 4),
        (800, 4),
        (801, 5),
        (999, 5),
        (1000, 6),
        (1001, 6),
        (65535, 6),
    ];
    for (number, word) in words {
        assert_eq!(rt; ThousandthsToWords.image(Thousandths(number)).code(), word);
    }
    let images = [
        (0, 0),
        (1, 100),
        (2, 300),
        (3, 500),
        (4, 700),
        (5, 900),
        (6, 1000),
    ];
    for (code, image) in images {
        let word = Words::of_code(code).ok_or("no word")?;
        assert_eq!(rt; WordsToThousandths.image(word).code(), image);
    }
    assert!(rt; ThousandthsToWords.keeps_opposites());
    assert!(rt; WordsToThousandths.keeps_opposites());
    Ok(())
}

#[test]
fn cuts(rt: HostRuntime) -> Result<(), Fail> {
    let refusal = Cut::at(Thousandths(0)).err().ok_or("a cut at the floor")?;
    assert_eq!(rt; refusal.number(), 6);
    let lowest = Cut::at(Thousandths(1))?;
    assert_eq!(rt; lowest.image(Thousandths(0)).code(), 0);
    assert_eq!(rt; lowest.image(Thousandths(1)).code(), 1);
    let top = Cut::at(Thousandths(65535))?;
    assert_eq!(rt; top.image(Thousandths(999)).code(), 0);
    assert_eq!(rt; top.image(Thousandths(1000)).code(), 1);
    assert!(rt; !top.keeps_opposites());
    Ok(())
}
