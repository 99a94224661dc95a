ghost use Rattle.std.specs.Prelude.{◌≤◌};

use crate::tests::ascents::runs::{Run, run_rows};
use ascent_examples::{Rows, Step};
use order_core::{List, Num, NumOrder, TupleOrder};
use std::alloc::{AllocError, Global};
use std::test::Fail;

fn pair(alloc: Global, first: Num, second: Num) -> Result<List<Num>, AllocError> {
    Ok(List::of(Vec::from_array(alloc, [first, second])?))
}

fn step(alloc: Global, start: [Num; 2], end: [Num; 2]) -> Result<Step<List<Num>>, AllocError> {
    Ok(Step {
        start: pair(alloc, start[0], start[1])?,
        end: pair(alloc, end[0], end[1])?,
    })
}

fn run_pairs(
    alloc: Global,
    steps: Vec<Step<List<Num>>>,
    rounds: u32,
) -> Result<Option<Run<List<Num>>>, Fail>
    requires some { 1 ≤ rounds }
    requires within { rounds ≤ 1000000 }
{
    let order = TupleOrder {
        parts: List::of(Vec::from_array(alloc, [NumOrder, NumOrder])?),
    };
    let relation = Rows {
        order: TupleOrder {
            parts: List::of(Vec::from_array(alloc, [NumOrder, NumOrder])?),
        },
        steps: List::of(steps),
    };
    Ok(run_rows(alloc, order, relation, rounds)?)
}

fn are(points: &[List<Num>], wanted: &[[u64; 2]]) -> bool {
    if points.len() != wanted.len() {
        return false;
    }
    for (at, want) in wanted.iter().enumerate() {
        if points[at].items() != [Num::Count(want[0]), Num::Count(want[1])].as_slice() {
            return false;
        }
    }
    true
}

/// A catalogue's row k leads from k - 1 to k, for k from 1 to 40, and 40 leads to itself.
fn ring(alloc: Global) -> Result<Vec<Step<List<Num>>>, Fail> {
    let mut steps = Vec::new(alloc);
    for k in 1..41u64 {
        let before = Num::Count(k - 1);
        let after = Num::Count(k);
        steps.push(step(alloc, [before, Num::Top], [after, after])?)?;
    }
    let last = Num::Count(40);
    steps.push(step(alloc, [last, Num::Top], [last, last])?)?;
    Ok(steps)
}

#[test]
fn ring_asks_each_point_once(rt: HostRuntime) -> Result<(), Fail> {
    for rounds in [42, 1000000] {
        let Some(run) = run_pairs(rt.alloc(), ring(rt.alloc())?, rounds)? else {
            panic!(rt; "a row of no values")
        };
        assert_eq!(rt; run.asked.len(), 41);
        for (at, point) in run.asked.iter().enumerate() {
            let k = Num::Count(at as u64);
            assert!(rt; point.items() == [k, k].as_slice());
        }
        assert!(rt; are(run.found.settled.items(), &[[40, 40]]));
        assert!(rt; are(run.found.fresh.items(), &[]));
        assert!(rt; are(run.found.left.items(), &[]));
    }
    Ok(())
}

#[test]
fn ring_in_too_few_rounds(rt: HostRuntime) -> Result<(), Fail> {
    let Some(run) = run_pairs(rt.alloc(), ring(rt.alloc())?, 40)? else {
        panic!(rt; "a row of no values")
    };
    assert!(rt; are(run.found.settled.items(), &[]));
    assert!(rt; are(run.found.fresh.items(), &[[40, 40]]));
    assert!(rt; are(run.found.left.items(), &[[39, 39]]));
    Ok(())
}

/// Each number leads to the next one.
fn climb(alloc: Global) -> Result<Vec<Step<List<Num>>>, Fail> {
    let mut steps = Vec::new(alloc);
    for k in 0..100u64 {
        let after = Num::Count(k + 1);
        steps.push(step(alloc, [Num::Count(k), Num::Top], [after, after])?)?;
    }
    Ok(steps)
}

#[test]
fn climb_is_not_steady(rt: HostRuntime) -> Result<(), Fail> {
    for (rounds, before, after) in [(1, 0, 1), (5, 4, 5), (60, 59, 60)] {
        let Some(run) = run_pairs(rt.alloc(), climb(rt.alloc())?, rounds)? else {
            panic!(rt; "a row of no values")
        };
        assert!(rt; are(run.found.settled.items(), &[]));
        assert!(rt; are(run.found.fresh.items(), &[[after, after]]));
        assert!(rt; are(run.found.left.items(), &[[before, before]]));
        assert_eq!(rt; run.asked.len(), rounds as usize);
    }
    Ok(())
}

#[test]
fn outcomes_branch(rt: HostRuntime) -> Result<(), Fail> {
    let alloc = rt.alloc();
    let none = Num::Count(0);
    let one = Num::Count(1);
    let two = Num::Count(2);
    let mut steps = Vec::new(alloc);
    steps.push(step(alloc, [none, none], [two, none])?)?;
    steps.push(step(alloc, [none, none], [none, two])?)?;
    steps.push(step(alloc, [two, none], [two, none])?)?;
    steps.push(step(alloc, [none, two], [one, two])?)?;
    steps.push(step(alloc, [one, two], [one, two])?)?;
    let Some(run) = run_pairs(alloc, steps, 9)? else {
        panic!(rt; "a row of no values")
    };
    assert!(rt;
        are(run.found.settled.items(), &[[2, 0], [1, 2]])
            || are(run.found.settled.items(), &[[1, 2], [2, 0]])
    );
    assert!(rt; are(run.found.fresh.items(), &[]));
    assert!(rt; are(run.found.left.items(), &[]));
    assert_eq!(rt; run.asked.len(), 4);
    Ok(())
}

#[test]
fn nothing_follows(rt: HostRuntime) -> Result<(), Fail> {
    let Some(first) = run_pairs(rt.alloc(), Vec::new(rt.alloc()), 1)? else {
        panic!(rt; "a row of no values")
    };
    assert!(rt; are(first.found.settled.items(), &[]));
    assert!(rt; are(first.found.fresh.items(), &[]));
    assert!(rt; are(first.found.left.items(), &[[0, 0]]));
    let Some(second) = run_pairs(rt.alloc(), Vec::new(rt.alloc()), 2)? else {
        panic!(rt; "a row of no values")
    };
    assert!(rt; are(second.found.settled.items(), &[]));
    assert!(rt; are(second.found.fresh.items(), &[]));
    assert!(rt; are(second.found.left.items(), &[]));
    assert_eq!(rt; second.asked.len(), 1);
    Ok(())
}

#[test]
fn row_of_no_value_is_told(rt: HostRuntime) -> Result<(), Fail> {
    let mut steps = Vec::new(rt.alloc());
    let single = List::of(Vec::from_array(rt.alloc(), [Num::Top])?);
    steps.push(Step {
        start: single,
        end: pair(rt.alloc(), Num::Top, Num::Top)?,
    })?;
    assert!(rt; run_pairs(rt.alloc(), steps, 1)?.is_none());
    Ok(())
}
