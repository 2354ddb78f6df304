// The numbers and the words of causes and refusals.
use line::refusal::{Cause, LineFault, Refusal};
use std::test::Fail;

const CAUSES: [(Cause, &str); 7] = [
    (Cause::WrongLetter, "wrong letter"),
    (Cause::NoTab, "no tab"),
    (Cause::NoHexDigit, "no hex digit"),
    (Cause::NoLineFeed, "no line feed"),
    (Cause::OutOfRange, "value outside its range"),
    (Cause::OtherMark, "another field's mark"),
    (Cause::BytesAfter, "bytes after the line"),
];

#[test]
fn words_of_causes(rt: HostRuntime) -> Result<(), Fail> {
    for (number, (cause, words)) in (1..).zip(CAUSES) {
        assert_eq!(rt; cause.number(), number);
        let shown = cause.to_string(rt.alloc())?;
        assert_eq!(rt; shown.as_str(), words);
    }
    Ok(())
}

const FAULT: LineFault = LineFault {
    line: 1,
    place: 17,
    cause: Cause::NoHexDigit,
};

const REFUSALS: [(Refusal, &str); 17] = [
    (Refusal::WrongPhase, "1"),
    (Refusal::NumbersOutOfRange, "2"),
    (Refusal::DrawLength, "3"),
    (Refusal::DrawCode { index: 17 }, "4: code 17"),
    (Refusal::ScratchTooShort, "5"),
    (Refusal::NoSuchKiosk, "6"),
    (Refusal::RollFull, "7"),
    (Refusal::BufferTooShort, "8"),
    (Refusal::JournalFull, "9"),
    (Refusal::NoSuchSeat, "10"),
    (Refusal::TooFewSeatsDealt, "11"),
    (
        Refusal::OutOfForm(FAULT),
        "12: line 1, byte 17: no hex digit",
    ),
    (Refusal::OtherTour { line: 2 }, "13: line 2"),
    (Refusal::TooFewLines, "14"),
    (Refusal::SeatRepeated { line: 2 }, "15: line 2"),
    (Refusal::Disagrees { line: 3 }, "16: line 3"),
    (Refusal::OwnNumber, "17"),
];

#[test]
fn words_of_refusals(rt: HostRuntime) -> Result<(), Fail> {
    for (refusal, words) in REFUSALS {
        let shown = refusal.to_string(rt.alloc())?;
        assert_eq!(rt; shown.as_str(), words);
    }
    Ok(())
}
