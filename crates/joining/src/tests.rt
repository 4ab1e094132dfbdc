//! Worked rows, rows at the limits, and each refusal with its place.
use crate::best::Best;
use crate::fault::JoiningFault;
use crate::joining::Joining;
use crate::mean::Mean;
use crate::rises::rise;
use crate::rows::{GREATEST_FIGURE, LONGEST_ROW};
use crate::worked::worked_rows;
use crate::worst::Worst;
use refusal::{Fault, Layer};
use std::test::Fail;

#[test]
fn worked_rows_are_answered(rt: HostRuntime) -> Result<(), Fail> {
    assert_eq!(rt; worked_rows()?, [5, 100, 9, 2]);
    Ok(())
}

#[test]
fn rows_at_the_limits_are_answered(rt: HostRuntime) {
    let weights = [255u8; LONGEST_ROW];
    let figures = [GREATEST_FIGURE; LONGEST_ROW];
    assert_eq!(rt; Mean.join(&weights, &figures), Ok(GREATEST_FIGURE));
    assert_eq!(rt; Worst.join(&weights, &figures), Ok(GREATEST_FIGURE));
    assert_eq!(rt; Best.join(&weights, &figures), Ok(GREATEST_FIGURE));
    assert_eq!(rt; Mean.join(&[7], &[41]), Ok(41));
    assert_eq!(rt; Worst.join(&[1], &[0]), Ok(0));
    assert_eq!(rt; Best.join(&[255], &[GREATEST_FIGURE]), Ok(GREATEST_FIGURE));
}

#[test]
fn unlawful_rows_are_refused(rt: HostRuntime) {
    assert_eq!(rt; Mean.join(&[], &[]), Err(JoiningFault::Lengths));
    assert_eq!(rt; Worst.join(&[1, 1], &[5]), Err(JoiningFault::Lengths));
    assert_eq!(rt; Best.join(&[0; 17], &[0; 17]), Err(JoiningFault::Lengths));
    assert_eq!(rt;
        Mean.join(&[1, 0, 1], &[5, 6, GREATEST_FIGURE + 1]),
        Err(JoiningFault::Pair(1))
    );
    assert_eq!(rt;
        Worst.join(&[1, 1, 0], &[5, GREATEST_FIGURE + 1, 7]),
        Err(JoiningFault::Pair(1))
    );
}

#[test]
fn a_rise_follows_the_joining(rt: HostRuntime) {
    assert_eq!(rt; rise(&Mean, &[3, 1], &[0, 4096], &[0, 5120]), Ok(256));
    assert_eq!(rt; rise(&Worst, &[3, 1], &[0, 4096], &[0, 5120]), Ok(1024));
    assert_eq!(rt; rise(&Best, &[3, 1], &[4, 4096], &[0, 5120]), Ok(0));
    assert_eq!(rt;
        rise(&Best, &[3, 1], &[0, 1, 2], &[]),
        Err(JoiningFault::Lengths)
    );
}

#[test]
fn faults_read_and_print_their_refusal(rt: HostRuntime) -> Result<(), Fail> {
    let fault = JoiningFault::Pair(3);
    assert_eq!(rt; fault.number(), 1);
    assert_eq!(rt; fault.layer(), Layer::Joining);
    assert_eq!(rt; fault.place(), 3);
    assert_eq!(rt; JoiningFault::Lengths.place(), 0);
    let line = format!(in rt.alloc(); "{fault}")?;
    assert_eq!(rt; line.as_str(), "(refused joining 1 at 3)");
    Ok(())
}
