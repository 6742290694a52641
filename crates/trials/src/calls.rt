// The calls on a drawn sheet, at every limit.
use crate::shared::event_name;
use rules::Plain;
use settle::reading::Reading;
use settle::settled::settle;
use sheet::drawn::Drawn;
use sheet::fault::{CallFault, Refusal};
use std::test::Fail;
use timing::bound::Term;

fn is_fault(answer: Result<usize, CallFault>, number: u8) -> bool {
    answer.map_err(CallFault::number) == Err(number)
}

fn term(from: usize, delay: i64) -> Term {
    Term { from, delay }
}

#[test]
fn sixty_four_events_stand(rt: HostRuntime) -> Result<(), Fail> {
    let mut sheet = Drawn::open(rt.alloc(), Plain {})?;
    for i in 0..64u8 {
        assert!(rt; sheet.event(&event_name(i)) == Ok(usize::from(i)));
    }
    assert!(rt; is_fault(sheet.event(b"more"), 11));
    assert!(rt; is_fault(sheet.event(b"E00"), 9));
    assert!(rt; is_fault(sheet.event(b""), 6));
    assert!(rt; is_fault(sheet.event(b"thirteen_long"), 6));
    assert!(rt; sheet.event_count() == 64);
    assert!(rt; sheet.number_of(b"E63") == Some(63));
    assert!(rt; sheet.number_of(b"more") == None);
    Ok(())
}

#[test]
fn two_hundred_and_fifty_six_bounds_stand(rt: HostRuntime) -> Result<(), Fail> {
    let mut sheet = Drawn::open(rt.alloc(), Plain {})?;
    assert!(rt; sheet.event(b"A") == Ok(0));
    for i in 0..256usize {
        assert!(rt; sheet.bound(0, 0, 0, &[term(0, 0)]) == Ok(i));
    }
    assert!(rt; is_fault(sheet.bound(0, 0, 0, &[term(0, 0)]), 12));
    assert!(rt; is_fault(sheet.bound(0, 0, 0, &[term(0, 1_000_001)]), 14));
    assert!(rt; sheet.strike(256).map_err(Refusal::number) == Err(15));
    assert!(rt; sheet.bound_count() == 256);
    assert!(rt; sheet.strike(0) == Ok(255));
    assert!(rt; sheet.bound(0, 0, 0, &[term(0, 0)]) == Ok(255));
    Ok(())
}

#[test]
fn terms_and_delays_at_the_limit(rt: HostRuntime) -> Result<(), Fail> {
    let mut sheet = Drawn::open(rt.alloc(), Plain {})?;
    assert!(rt; sheet.event(b"A") == Ok(0));
    assert!(rt; sheet.bound(0, 0, 0, &[term(0, 0); 8]) == Ok(0));
    assert!(rt; is_fault(sheet.bound(0, 0, 0, &[term(0, 0); 9]), 13));
    assert!(rt; is_fault(sheet.bound(0, 0, 0, &[]), 13));
    assert!(rt; sheet.bound(0, 0, 0, &[term(0, 1_000_000)]) == Ok(1));
    assert!(rt; sheet.bound(0, 0, 0, &[term(0, -1_000_000)]) == Ok(2));
    assert!(rt; is_fault(sheet.bound(0, 0, 0, &[term(0, 1_000_001)]), 14));
    assert!(rt; is_fault(sheet.bound(0, 0, 0, &[term(0, -1_000_001)]), 14));
    assert!(rt; is_fault(sheet.bound(0, 0, 1, &[term(1, 1_000_001)]), 10));
    assert!(rt; is_fault(sheet.bound(1, 0, 1, &[term(1, 1_000_001)]), 13));
    assert!(rt; is_fault(sheet.bound(0, 0, 0, &[term(0, 1_000_001), term(1, 0)]), 14));
    assert!(rt; is_fault(sheet.bound(0, 0, 0, &[term(1, 1_000_001), term(0, 0)]), 10));
    assert!(rt; sheet.bound_count() == 3);
    Ok(())
}

// The last event of a chain of 63 bounds of 1,000,000 is at 63,000,000, and not open.
#[test]
fn a_chain_reaches_the_greatest_separation(rt: HostRuntime) -> Result<(), Fail> {
    let mut sheet = Drawn::open(rt.alloc(), Plain {})?;
    for i in 0..64u8 {
        assert!(rt; sheet.event(&event_name(i)) == Ok(usize::from(i)));
    }
    for i in 0..63usize {
        assert!(rt; sheet.bound(0, 0, i + 1, &[term(i, 1_000_000)]) == Ok(i));
    }
    let settled = settle(sheet, 0);
    assert!(rt;
        settled.read(63)
            == Ok(Reading {
                separation: Some(63_000_000),
                place: 63_000_000,
            })
    );
    Ok(())
}
