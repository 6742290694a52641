// Questions put to each rule set, with their answers, at every edge of kind, K, count and mask.
use buyer::Lead;
use rules::{Group, Plain, RuleSet, Vote};
use std::process::Abort;
use std::test::Fail;

// Kind, K, count; admitted or not.
type Admission = (u8, u8, u8, bool);

// Kind, K, count, mask; enough or not.
type Sufficiency = (u8, u8, u8, u8, bool);

// Of every set: kind 0 with K 0 for one to eight terms, and nothing with no terms or more than eight.
const COMMON: [Admission; 8] = [
    (0, 0, 0, false),
    (0, 0, 1, true),
    (0, 0, 8, true),
    (0, 0, 9, false),
    (0, 0, 255, false),
    (0, 1, 8, false),
    (0, 255, 8, false),
    (255, 0, 8, false),
];

// Of every set: for kind 0 each set but the empty one, and no bit at or past the count.
const ANY: [Sufficiency; 14] = [
    (0, 0, 1, 0, false),
    (0, 0, 1, 1, true),
    (0, 0, 1, 2, false),
    (0, 0, 1, 3, false),
    (0, 0, 7, 127, true),
    (0, 0, 7, 128, false),
    (0, 0, 7, 255, false),
    (0, 0, 8, 0, false),
    (0, 0, 8, 1, true),
    (0, 0, 8, 128, true),
    (0, 0, 8, 255, true),
    (0, 0, 0, 1, false),
    (0, 0, 9, 255, false),
    (0, 1, 8, 255, false),
];

const PLAIN_ADMITS: [Admission; 3] = [(1, 0, 8, false), (1, 1, 8, false), (2, 1, 8, false)];

const PLAIN_ENOUGH: [Sufficiency; 2] = [(1, 0, 8, 255, false), (1, 1, 8, 255, false)];

const VOTE_ADMITS: [Admission; 14] = [
    (1, 0, 0, false),
    (1, 0, 1, true),
    (1, 0, 8, true),
    (1, 0, 9, false),
    (1, 1, 8, false),
    (2, 0, 8, false),
    (2, 1, 1, true),
    (2, 2, 1, false),
    (2, 8, 8, true),
    (2, 9, 8, false),
    (2, 9, 9, false),
    (2, 255, 255, false),
    (2, 255, 8, false),
    (3, 1, 8, false),
];

const VOTE_ENOUGH: [Sufficiency; 19] = [
    (1, 0, 1, 0, false),
    (1, 0, 1, 1, true),
    (1, 0, 3, 6, false),
    (1, 0, 3, 7, true),
    (1, 0, 3, 15, false),
    (1, 0, 3, 14, false),
    (1, 0, 8, 127, false),
    (1, 0, 8, 254, false),
    (1, 0, 8, 255, true),
    (2, 1, 8, 0, false),
    (2, 1, 8, 128, true),
    (2, 2, 3, 4, false),
    (2, 2, 3, 5, true),
    (2, 2, 3, 12, false),
    (2, 8, 8, 254, false),
    (2, 8, 8, 255, true),
    (2, 0, 8, 255, false),
    (2, 9, 8, 255, false),
    (3, 1, 8, 255, false),
];

// Group and Lead both admit kind 1 with K from 1 to the count less one.
const SPLIT_ADMITS: [Admission; 12] = [
    (1, 0, 8, false),
    (1, 1, 0, false),
    (1, 1, 1, false),
    (1, 1, 2, true),
    (1, 2, 2, false),
    (1, 7, 8, true),
    (1, 8, 8, false),
    (1, 8, 9, false),
    (1, 1, 9, false),
    (1, 254, 255, false),
    (1, 255, 8, false),
    (2, 1, 8, false),
];

const GROUP_ENOUGH: [Sufficiency; 17] = [
    (1, 1, 2, 0, false),
    (1, 1, 2, 1, false),
    (1, 1, 2, 2, false),
    (1, 1, 2, 3, true),
    (1, 1, 2, 7, false),
    (1, 3, 5, 7, false),
    (1, 3, 5, 24, false),
    (1, 3, 5, 12, true),
    (1, 3, 5, 17, true),
    (1, 3, 5, 33, false),
    (1, 7, 8, 127, false),
    (1, 7, 8, 128, false),
    (1, 7, 8, 192, true),
    (1, 7, 8, 255, true),
    (1, 8, 8, 255, false),
    (1, 0, 8, 255, false),
    (2, 1, 8, 255, false),
];

const LEAD_ENOUGH: [Sufficiency; 14] = [
    (1, 1, 2, 0, false),
    (1, 1, 2, 1, true),
    (1, 1, 2, 2, true),
    (1, 1, 2, 5, false),
    (1, 2, 4, 2, false),
    (1, 2, 4, 10, true),
    (1, 2, 4, 1, true),
    (1, 7, 8, 126, false),
    (1, 7, 8, 254, true),
    (1, 7, 8, 1, true),
    (1, 7, 8, 255, true),
    (1, 8, 8, 255, false),
    (1, 0, 8, 255, false),
    (2, 1, 8, 255, false),
];

fn admits<R: RuleSet>(rt: &impl Abort, what: &str, rules: &R, asked: &[Admission]) {
    for &(kind, k, count, answer) in asked {
        assert_eq!(rt; rules.admits(kind, k, count), answer, "{what}");
    }
}

fn enough<R: RuleSet>(rt: &impl Abort, what: &str, rules: &R, asked: &[Sufficiency]) {
    for &(kind, k, count, set, answer) in asked {
        assert_eq!(rt; rules.enough(kind, k, count, set), answer, "{what}");
    }
}

fn answers<R: RuleSet>(rt: &impl Abort, rules: &R, added: &[Admission], sets: &[Sufficiency]) {
    admits(rt, "kind 0", rules, &COMMON);
    enough(rt, "sets of kind 0", rules, &ANY);
    admits(rt, "the added kinds", rules, added);
    enough(rt, "sets of the added kinds", rules, sets);
}

#[test]
fn plain(rt: HostRuntime) {
    answers(&rt, &Plain {}, &PLAIN_ADMITS, &PLAIN_ENOUGH);
}

#[test]
fn vote(rt: HostRuntime) {
    answers(&rt, &Vote {}, &VOTE_ADMITS, &VOTE_ENOUGH);
}

#[test]
fn group(rt: HostRuntime) {
    answers(&rt, &Group {}, &SPLIT_ADMITS, &GROUP_ENOUGH);
}

#[test]
fn lead(rt: HostRuntime) {
    answers(&rt, &Lead {}, &SPLIT_ADMITS, &LEAD_ENOUGH);
}
