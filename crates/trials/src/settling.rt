// Sheets drawn, settled, read and reopened, with answers that a reader can check by hand.
use crate::shared::event_name;
use rules::{Plain, RuleSet, Vote};
use settle::reading::Reading;
use settle::replay::{Answer, Call, replay};
use settle::settled::settle;
use sheet::drawn::Drawn;
use sheet::fault::Refusal;
use std::alloc::{AllocError, Global};
use std::test::Fail;
use timing::bound::Term;

const FAR: i64 = 1_000_000_000;

// What is answered where this separation, or none, and this place are read.
fn read(separation: Option<i64>, place: i64) -> Result<Reading, Refusal> {
    Ok(Reading { separation, place })
}

// A bound of kind 0 on one term.
fn limit<R: RuleSet>(drawn: &mut Drawn<R>, to: usize, from: usize, delay: i64) {
    let _ = drawn.bound(0, 0, to, &[Term { from, delay }]);
}

// A memory: address valid, chip select, data valid.
fn memory(heap: Global) -> Result<Drawn<Plain>, AllocError> {
    let mut drawn = Drawn::open(heap, Plain {})?;
    let _ = drawn.event(b"AV");
    let _ = drawn.event(b"CS");
    let _ = drawn.event(b"DV");
    let _ = drawn.bound(
        0,
        0,
        2,
        &[Term { from: 0, delay: 20 }, Term { from: 1, delay: 20 }],
    );
    limit(&mut drawn, 0, 2, 0);
    limit(&mut drawn, 1, 2, 0);
    limit(&mut drawn, 1, 2, -30);
    Ok(drawn)
}

#[test]
fn memory_from_each_event(rt: HostRuntime) -> Result<(), Fail> {
    let from_av = settle(memory(rt.alloc())?, 0);
    assert!(rt; from_av.read(0) == read(Some(0), 0));
    assert!(rt; from_av.read(1) == read(Some(-10), -10));
    assert!(rt; from_av.read(2) == read(Some(20), 20));
    let from_dv = settle(from_av.reopen(), 2);
    assert!(rt; from_dv.read(0) == read(Some(0), 0));
    assert!(rt; from_dv.read(1) == read(Some(-30), -30));
    let from_cs = settle(from_dv.reopen(), 1);
    assert!(rt; from_cs.read(0) == read(None, FAR));
    assert!(rt; from_cs.read(1) == read(Some(0), 0));
    assert!(rt; from_cs.read(2) == read(None, FAR));
    Ok(())
}

#[test]
fn needs_on_the_memory(rt: HostRuntime) -> Result<(), Fail> {
    let settled = settle(memory(rt.alloc())?, 0);
    assert!(rt; settled.is_met(1, -10) == Ok(true));
    assert!(rt; settled.is_met(1, -11) == Ok(false));
    assert!(rt; settled.is_met(2, 19) == Ok(false));
    assert!(rt; settled.is_met(2, 20) == Ok(true));
    let from_cs = settle(settled.reopen(), 1);
    assert!(rt; from_cs.is_met(2, FAR) == Ok(false));
    Ok(())
}

#[test]
fn refusals_in_order(rt: HostRuntime) -> Result<(), Fail> {
    let nowhere = settle(memory(rt.alloc())?, 3);
    assert!(rt; nowhere.read(0).map_err(Refusal::number) == Err(10));
    assert!(rt; nowhere.knot(9).map_err(Refusal::number) == Err(10));
    assert!(rt; nowhere.is_met(9, 0).map_err(Refusal::number) == Err(10));
    let settled = settle(nowhere.reopen(), 0);
    assert!(rt; settled.read(3).map_err(Refusal::number) == Err(10));
    assert!(rt; settled.knot(0).map_err(Refusal::number) == Err(18));
    assert!(rt; settled.knot(9).map_err(Refusal::number) == Err(18));
    let mut drawn = settled.reopen();
    limit(&mut drawn, 0, 0, -1);
    let knotted = settle(drawn, 0);
    assert!(rt; knotted.read(3).map_err(Refusal::number) == Err(10));
    assert!(rt; knotted.read(0).map_err(Refusal::number) == Err(17));
    assert!(rt; knotted.is_met(0, 0).map_err(Refusal::number) == Err(17));
    assert!(rt; knotted.knot(5).map_err(Refusal::number) == Err(15));
    assert!(rt; knotted.knot(4) == Ok(true));
    assert!(rt; knotted.knot(0) == Ok(false));
    Ok(())
}

#[test]
fn the_knot_is_the_later_of_two(rt: HostRuntime) -> Result<(), Fail> {
    let mut drawn = Drawn::open(rt.alloc(), Plain {})?;
    let _ = drawn.event(b"A");
    let _ = drawn.event(b"B");
    limit(&mut drawn, 0, 0, -1);
    limit(&mut drawn, 1, 1, -1);
    let settled = settle(drawn, 0);
    assert!(rt; settled.knot(0) == Ok(false));
    assert!(rt; settled.knot(1) == Ok(true));
    let mut drawn = settled.reopen();
    let _ = drawn.strike(1);
    let settled = settle(drawn, 1);
    assert!(rt; settled.knot(0) == Ok(true));
    Ok(())
}

// E with inputs A, B and C, by a rule of the vote set; B and C are not later than A.
fn three_inputs(heap: Global, kind: u8, k: u8) -> Result<Drawn<Vote>, AllocError> {
    let mut drawn = Drawn::open(heap, Vote {})?;
    let _ = drawn.event(b"A");
    let _ = drawn.event(b"B");
    let _ = drawn.event(b"C");
    let _ = drawn.event(b"E");
    limit(&mut drawn, 1, 0, 0);
    limit(&mut drawn, 2, 0, 0);
    let terms = [
        Term { from: 0, delay: 1 },
        Term { from: 1, delay: 5 },
        Term { from: 2, delay: 9 },
    ];
    let _ = drawn.bound(kind, k, 3, &terms);
    Ok(drawn)
}

#[test]
fn inputs_by_three_rules(rt: HostRuntime) -> Result<(), Fail> {
    let latest = settle(three_inputs(rt.alloc(), 0, 0)?, 0);
    assert!(rt; latest.read(3) == read(Some(9), 9));
    let every = settle(three_inputs(rt.alloc(), 1, 0)?, 0);
    assert!(rt; every.read(3) == read(Some(1), 1));
    let two = settle(three_inputs(rt.alloc(), 2, 2)?, 0);
    assert!(rt; two.read(3) == read(Some(5), 5));
    Ok(())
}

#[test]
fn the_longest_chain(rt: HostRuntime) -> Result<(), Fail> {
    let mut drawn = Drawn::open(rt.alloc(), Plain {})?;
    for i in 0..64u8 {
        let _ = drawn.event(&event_name(i));
    }
    for i in 0..63 {
        limit(&mut drawn, i + 1, i, 1_000_000);
    }
    let settled = settle(drawn, 0);
    assert!(rt; settled.read(63) == read(Some(63_000_000), 63_000_000));
    Ok(())
}

#[test]
fn a_journal(rt: HostRuntime) -> Result<(), Fail> {
    let heap = rt.alloc();
    let terms = [
        Term { from: 0, delay: 5 },
        Term {
            from: 0,
            delay: 1_000_001,
        },
    ];
    let calls = [
        Call::Event(b"A"),
        Call::Event(b"B"),
        Call::Bound {
            kind: 0,
            k: 0,
            to: 1,
            terms: &terms[0..1],
        },
        Call::Bound {
            kind: 0,
            k: 0,
            to: 1,
            terms: &terms[1..2],
        },
        Call::Read(1),
        Call::Settle(0),
        Call::Read(1),
        Call::Strike(0),
        Call::Reopen,
        Call::Strike(0),
        Call::Settle(0),
        Call::Read(1),
    ];
    let run = replay(heap, Plain {}, &calls)?;
    let answers = run.answers.as_slice();
    assert!(rt; answers.len() == 12);
    assert!(rt; matches!(answers[2], Answer::Added(Ok(0))));
    assert!(rt; matches!(answers[3], Answer::Added(Err(_))));
    assert!(rt; matches!(answers[4], Answer::OutOfPlace));
    assert!(rt; matches!(answers[5], Answer::Moved));
    assert!(rt; matches!(answers[6], Answer::ReadAs(answer) if answer == read(Some(5), 5)));
    assert!(rt; matches!(answers[7], Answer::OutOfPlace));
    assert!(rt; matches!(answers[9], Answer::Struck(Ok(0))));
    assert!(rt; matches!(answers[11], Answer::ReadAs(answer) if answer == read(None, FAR)));
    Ok(())
}

// A contradiction, the knot, the bound struck, and the sheet settled again from other sources.
#[test]
fn a_journal_with_a_knot(rt: HostRuntime) -> Result<(), Fail> {
    let terms = [Term { from: 0, delay: -1 }];
    let calls = [
        Call::Event(b"A"),
        Call::Event(b"A"),
        Call::Event(b"B"),
        Call::Bound {
            kind: 0,
            k: 0,
            to: 0,
            terms: &terms,
        },
        Call::Settle(1),
        Call::Read(0),
        Call::Read(2),
        Call::Knot(0),
        Call::Knot(1),
        Call::Settle(0),
        Call::Reopen,
        Call::Strike(1),
        Call::Strike(0),
        Call::Settle(1),
        Call::Read(0),
        Call::Knot(0),
        Call::Reopen,
        Call::Settle(2),
        Call::Read(0),
    ];
    let run = replay(rt.alloc(), Plain {}, &calls)?;
    let answers = run.answers.as_slice();
    assert!(rt; answers.len() == 19);
    assert!(rt; matches!(answers[1], Answer::Added(Err(fault)) if fault.number() == 9));
    assert!(rt; matches!(answers[2], Answer::Added(Ok(1))));
    assert!(rt; matches!(answers[5], Answer::ReadAs(Err(refusal)) if refusal.number() == 17));
    assert!(rt; matches!(answers[6], Answer::ReadAs(Err(refusal)) if refusal.number() == 10));
    assert!(rt; matches!(answers[7], Answer::InKnot(Ok(true))));
    assert!(rt; matches!(answers[8], Answer::InKnot(Err(refusal)) if refusal.number() == 15));
    assert!(rt; matches!(answers[9], Answer::OutOfPlace));
    assert!(rt; matches!(answers[11], Answer::Struck(Err(refusal)) if refusal.number() == 15));
    assert!(rt; matches!(answers[14], Answer::ReadAs(answer) if answer == read(None, FAR)));
    assert!(rt; matches!(answers[15], Answer::InKnot(Err(refusal)) if refusal.number() == 18));
    assert!(rt; matches!(answers[18], Answer::ReadAs(Err(refusal)) if refusal.number() == 10));
    Ok(())
}
