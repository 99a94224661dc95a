use order_core::{
    Boxed, FiniteOrder, List, Num, NumOrder, Order, OrderFault, Text, TupleOrder, UpperOrder,
};
use std::alloc::Global;
use std::test::Fail;

/// Four elements: 0 and 1, which are not compared, and 2 and 3 above both, which are not either.
fn crossed(alloc: Global) -> Result<FiniteOrder, OrderFault> {
    FiniteOrder::close(alloc, 4, &[(0, 2), (0, 3), (1, 2), (1, 3)])
}

#[test]
fn keeps_items_bytes_and_values(rt: HostRuntime) -> Result<(), Fail> {
    let list = List::of(Vec::from_array(rt.alloc(), [7, 8])?);
    assert_eq!(rt; list.items(), [7, 8].as_slice());
    let boxed = Boxed::of(rt.alloc(), list)?;
    assert_eq!(rt; boxed.into_inner().into_vec().as_slice(), [7, 8].as_slice());
    let text = Text::of(format!(in rt.alloc(); "port")?);
    assert_eq!(rt; text.copy(rt.alloc())?.as_str(), "port");
    Ok(())
}

#[test]
fn lists_numbers(rt: HostRuntime) -> Result<(), Fail> {
    let (three, five) = (Num::Count(3), Num::Count(5));
    assert!(rt; NumOrder.is_value(&three) && NumOrder.is_value(&five));
    assert_eq!(rt; NumOrder.copy(rt.alloc(), &five)?, five);
    assert_eq!(rt;
        NumOrder.least(rt.alloc())?.items(),
        [Num::Count(0)].as_slice()
    );
    assert_eq!(rt;
        NumOrder.bounds(rt.alloc(), &five, &three)?.items(),
        [five].as_slice()
    );
    Ok(())
}

#[test]
fn lists_elements(rt: HostRuntime) -> Result<(), Fail> {
    let order = crossed(rt.alloc())?;
    assert!(rt; order.is_value(&0) && order.is_value(&1));
    assert!(rt; order.is_value(&2) && order.is_value(&3));
    assert_eq!(rt; order.copy(rt.alloc(), &3)?, 3);
    assert_eq!(rt; order.least(rt.alloc())?.items(), [0, 1].as_slice());
    assert_eq!(rt;
        order.bounds(rt.alloc(), &1, &0)?.items(),
        [2, 3].as_slice()
    );
    assert_eq!(rt;
        order.minimal_of(rt.alloc(), &[3, 2, 1, 2])?.items(),
        [1].as_slice()
    );
    // No clause says it of a number that is no element.
    assert!(rt; !order.is_below(0, 4) && !order.is_below(0, 64));
    let cycle = FiniteOrder::close(rt.alloc(), 4, &[(2, 3), (3, 2), (0, 3), (3, 0)]);
    assert_eq!(rt; cycle.err(), Some(OrderFault::Cycle(0, 2)));
    Ok(())
}

#[test]
fn lists_upper_sets(rt: HostRuntime) -> Result<(), Fail> {
    let base = crossed(rt.alloc())?;
    let order = UpperOrder { base: &base };
    let zero = List::of(Vec::from_array(rt.alloc(), [0])?);
    let one = List::of(Vec::from_array(rt.alloc(), [1])?);
    assert!(rt; order.is_value(&zero) && order.is_value(&one));
    assert_eq!(rt; order.copy(rt.alloc(), &zero)?.items(), [0].as_slice());
    let least = order.least(rt.alloc())?;
    assert_eq!(rt; least.items()[0].items(), [0, 1].as_slice());
    let bounds = order.bounds(rt.alloc(), &zero, &one)?;
    assert_eq!(rt; bounds.items()[0].items(), [2, 3].as_slice());
    Ok(())
}

/// The tuples are these, in order.
fn are(tuples: &[List<u32>], want: &[[u32; 2]]) -> bool {
    tuples.len() == want.len()
        && tuples
            .iter()
            .zip(want.iter())
            .all(|(tuple, want)| tuple.items() == want.as_slice())
}

#[test]
fn lists_tuples(rt: HostRuntime) -> Result<(), Fail> {
    let alloc = rt.alloc();
    let parts = List::of(Vec::from_array(alloc, [crossed(alloc)?, crossed(alloc)?])?);
    let order = TupleOrder { parts };
    assert!(rt;
        are(
            order.least(alloc)?.items(),
            &[[0, 0], [0, 1], [1, 0], [1, 1]]
        )
    );
    let a = List::of(Vec::from_array(alloc, [0, 1])?);
    let b = List::of(Vec::from_array(alloc, [1, 2])?);
    assert!(rt; order.is_value(&a) && order.is_value(&b));
    assert_eq!(rt; order.copy(alloc, &a)?.items(), [0, 1].as_slice());
    assert!(rt; are(order.bounds(alloc, &a, &b)?.items(), &[[2, 2], [3, 2]]));
    Ok(())
}
