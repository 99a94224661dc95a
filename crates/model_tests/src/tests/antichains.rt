ghost use Rattle.std.specs.Prelude.{◌%◌, ◌&&◌, nat_le, nat_eq, true};
ghost use Rattle.std.proofs.Common.{arith};
ghost use Rattle.std.proofs.lemmas.Bool.Decides.{nat_tests};

use antichain::Antichain;
use order_core::{List, NoMemory, Order};
use std::alloc::{AllocError, Global};
use std::test::Fail;

/// Numbers by size, where an odd and an even one aren't compared.
#[derive(Clone, Copy)]
struct Parity;

impl Order for Parity {
    type Item = u8;

    ghost is_value = { λ o a. true };

    ghost leq = { λ o a b. nat_eq (a % 2) (b % 2) && nat_le a b };

    fn is_value(&self, _a: &u8) -> bool {
        true
    }

    fn leq(&self, a: &u8, b: &u8) -> bool {
        *a % 2 == *b % 2 && *a <= *b
    }

    fn copy(&self, _alloc: Global, a: &u8) -> Result<u8, NoMemory> {
        Ok(*a)
    }

    fn least(&self, alloc: Global) -> Result<List<u8>, NoMemory> {
        match Vec::from_array(alloc, [0, 1]) {
            Ok(items) => Ok(List::of(items)),
            Err(_) => Err(NoMemory),
        }
    }

    fn bounds(&self, alloc: Global, a: &u8, b: &u8) -> Result<List<u8>, NoMemory> {
        let mut bounds = Vec::new(alloc);
        if *a % 2 == *b % 2 && bounds.push((*a).max(*b)).is_err() {
            return Err(NoMemory);
        }
        Ok(List::of(bounds))
    }

    ghost laws = { λ o. record {
      reflexive = λ x h. Prim.grind (arith, nat_tests);
      transitive = λ x y z h k l p q. Prim.grind (arith, nat_tests);
      antisymmetric = λ x y h k p q. Prim.grind (arith, nat_tests);
    } };
}

#[test]
fn keeps_the_minimal_items(rt: HostRuntime) -> Result<(), Fail> {
    let items = List::of(Vec::from_array(rt.alloc(), [5, 2, 3, 4, 8, 3, 7])?);
    let made = Antichain::of(rt.alloc(), &Parity, items)?;
    assert_eq!(rt; made.items(), [2, 3].as_slice());
    assert_eq!(rt; made.into_list().items(), [2, 3].as_slice());
    Ok(())
}

#[test]
fn keeps_the_minimal_items_of_an_ordered_list(rt: HostRuntime) -> Result<(), Fail> {
    let items = List::of(Vec::from_array(rt.alloc(), [2, 2, 4, 3, 5, 8])?);
    let made = Antichain::of_ordered(rt.alloc(), &Parity, items)?;
    assert_eq!(rt; made.items(), [2, 3].as_slice());
    Ok(())
}

#[test]
fn keeps_the_minimal_items_of_a_swept_list(rt: HostRuntime) -> Result<(), Fail> {
    let items = List::of(Vec::from_array(rt.alloc(), [2, 2, 4, 6, 8])?);
    let made = Antichain::of_swept(rt.alloc(), &Parity, items)?;
    assert_eq!(rt; made.items(), [2].as_slice());
    let items = List::of(Vec::from_array(rt.alloc(), [2, 3, 5])?);
    let made = Antichain::of_swept(rt.alloc(), &Parity, items)?;
    assert_eq!(rt; made.items(), [2, 3].as_slice());
    Ok(())
}

#[test]
fn inserts(rt: HostRuntime) -> Result<(), Fail> {
    let items = List::of(Vec::from_array(rt.alloc(), [4, 5])?);
    let mut made = Antichain::of(rt.alloc(), &Parity, items)?;
    assert_eq!(rt; made.insert(&Parity, 6), Ok(false));
    assert_eq!(rt; made.items(), [4, 5].as_slice());
    assert_eq!(rt; made.insert(&Parity, 2), Ok(true));
    assert_eq!(rt; made.items(), [5, 2].as_slice());
    assert_eq!(rt; made.insert(&Parity, 3), Ok(true));
    assert_eq!(rt; made.items(), [2, 3].as_slice());
    Ok(())
}

#[test]
fn meets_what_is_above_a_member(rt: HostRuntime) -> Result<(), Fail> {
    let made = Antichain::of(
        rt.alloc(),
        &Parity,
        List::of(Vec::from_array(rt.alloc(), [4, 5])?),
    )?;
    assert!(rt; made.meets(&Parity, &4));
    assert!(rt; made.meets(&Parity, &8));
    assert!(rt; !made.meets(&Parity, &2));
    assert!(rt; !made.meets(&Parity, &3));
    Ok(())
}

#[test]
fn raises_to_common_bounds(rt: HostRuntime) -> Result<(), Fail> {
    let made = Antichain::of(
        rt.alloc(),
        &Parity,
        List::of(Vec::from_array(rt.alloc(), [4, 5])?),
    )?;
    let low = made.raise(rt.alloc(), &Parity, &2)?;
    assert_eq!(rt; low.items(), [4].as_slice());
    let high = made.raise(rt.alloc(), &Parity, &9)?;
    assert_eq!(rt; high.items(), [9].as_slice());
    let none = low.raise(rt.alloc(), &Parity, &1)?;
    assert!(rt; none.items().is_empty());
    Ok(())
}

#[test]
fn same_in_any_order(rt: HostRuntime) -> Result<(), Fail> {
    let made = Antichain::of(
        rt.alloc(),
        &Parity,
        List::of(Vec::from_array(rt.alloc(), [4, 5])?),
    )?;
    let turned = Antichain::of(
        rt.alloc(),
        &Parity,
        List::of(Vec::from_array(rt.alloc(), [5, 4])?),
    )?;
    let other = Antichain::of(
        rt.alloc(),
        &Parity,
        List::of(Vec::from_array(rt.alloc(), [4, 7])?),
    )?;
    let fewer = Antichain::of(
        rt.alloc(),
        &Parity,
        List::of(Vec::from_array(rt.alloc(), [4, 6])?),
    )?;
    assert!(rt; made.same(&Parity, &turned));
    assert!(rt; !made.same(&Parity, &other));
    assert!(rt; !made.same(&Parity, &fewer));
    assert!(rt; !fewer.same(&Parity, &made));
    Ok(())
}
