ghost use Rattle.std.specs.Prelude.{◌≡◌, ◌≤◌, ◌&&◌, ◌||◌, nat_le, nat_eq};
ghost use Rattle.std.proofs.Common.{arith};
ghost use Rattle.std.proofs.lemmas.Bool.Decides.{nat_tests};

use crate::tests::ascents::runs::{Run, run_rows};
use ascent_examples::{Rows, Step};
use order_core::{List, NoMemory, Order, TupleOrder};
use std::alloc::{AllocError, Global};
use std::test::Fail;

/// The numbers 1 and 2, which are not compared, and 3 above both.
#[derive(Clone, Copy)]
struct Fork;

impl Order for Fork {
    type Item = u8;

    ghost is_value = { λ o a. nat_le 1 a && nat_le a 3 };

    ghost leq = { λ o a b. nat_eq a b || nat_eq b 3 };

    fn is_value(&self, a: &u8) -> bool {
        1 <= *a && *a <= 3
    }

    fn leq(&self, a: &u8, b: &u8) -> bool {
        *a == *b || *b == 3
    }

    fn copy(&self, _alloc: Global, a: &u8) -> Result<u8, NoMemory> {
        Ok(*a)
    }

    fn least(&self, alloc: Global) -> Result<List<u8>, NoMemory> {
        match Vec::from_array(alloc, [1, 2]) {
            Ok(items) => Ok(List::of(items)),
            Err(_) => Err(NoMemory),
        }
    }

    fn bounds(&self, alloc: Global, a: &u8, b: &u8) -> Result<List<u8>, NoMemory> {
        let bound = if *a == *b { *a } else { 3 };
        match Vec::from_array(alloc, [bound]) {
            Ok(items) => Ok(List::of(items)),
            Err(_) => Err(NoMemory),
        }
    }

    ghost laws = { λ o. record {
      reflexive = λ x h. Prim.grind (arith, nat_tests);
      transitive = λ x y z h k l p q. Prim.grind (arith, nat_tests);
      antisymmetric = λ x y h k p q. Prim.grind (arith, nat_tests);
    } };
}

fn step(alloc: Global, start: [u8; 2], end: [u8; 2]) -> Result<Step<List<u8>>, AllocError> {
    Ok(Step {
        start: List::of(Vec::from_array(alloc, start)?),
        end: List::of(Vec::from_array(alloc, end)?),
    })
}

fn run_forks(
    alloc: Global,
    steps: Vec<Step<List<u8>>>,
    rounds: u32,
) -> Result<Option<Run<List<u8>>>, Fail>
    requires some { 1 ≤ rounds }
    requires within { rounds ≤ 1000000 }
{
    let order = TupleOrder {
        parts: List::of(Vec::from_array(alloc, [Fork, Fork])?),
    };
    let relation = Rows {
        order: TupleOrder {
            parts: List::of(Vec::from_array(alloc, [Fork, Fork])?),
        },
        steps: List::of(steps),
    };
    Ok(run_rows(alloc, order, relation, rounds)?)
}

/// A catalogue's rows lead from 1 to 2, from 2 to 1, and from 3 to 3. So only 3 is above what it needs itself.
#[test]
fn back_joins_two_points(rt: HostRuntime) -> Result<(), Fail> {
    let alloc = rt.alloc();
    let mut steps = Vec::new(alloc);
    steps.push(step(alloc, [1, 3], [2, 2])?)?;
    steps.push(step(alloc, [2, 3], [1, 1])?)?;
    steps.push(step(alloc, [3, 3], [3, 3])?)?;
    let Some(run) = run_forks(alloc, steps, 10)? else {
        panic!(rt; "a row of no values")
    };
    assert_eq!(rt; run.found.settled.items().len(), 1);
    assert!(rt; run.found.settled.items()[0].items() == [3, 3].as_slice());
    assert!(rt; run.found.fresh.items().is_empty());
    assert!(rt; run.found.left.items().is_empty());
    assert_eq!(rt; run.asked.len(), 7);
    Ok(())
}
