ghost use Rattle.std.specs.Prelude.{◌≤◌, IsTrue};
ghost use Rattle.std.specs.List.{list_all};
ghost use Rattle.order_core.specs.Walk.{is_pair_below};

use crate::Reachability;
use order_core::NoMemory;
use std::alloc::Global;
use std::test::Fail;

/// Whether chains lead from and to these numbers below `n`, and from and to no others.
fn leads(table: &Reachability, n: u32, reached: &[(u32, u32)]) -> bool {
    (0..n).all(|a| (0..n).all(|b| table.reaches(a, b) == reached.contains(&(a, b))))
}

/// Whether the table of the pairs tells what chains reach, which number comes back first, and the ranks of some numbers.
fn tells(
    alloc: Global,
    n: u32,
    pairs: &[(u32, u32)],
    reached: &[(u32, u32)],
    back: Option<u32>,
    ranks: &[(u32, u32)],
) -> Result<bool, NoMemory>
    requires few { n ≤ 65536 }
    requires pairs { IsTrue (list_all (is_pair_below n) pairs.now) }
{
    let table = Reachability::of(alloc, n, pairs)?;
    Ok(
        leads(&table, n + 70, reached)
            && table.first_back() == back
            && ranks.iter().all(|(a, rank)| table.rank(*a) == *rank),
    )
}

#[test]
fn nothing_comes_back(rt: HostRuntime) -> Result<(), Fail> {
    let alloc = rt.alloc();
    assert!(rt; tells(alloc, 0, &[], &[], None, &[(0, 0)])?);
    assert!(rt;
        tells(
            alloc,
            3,
            &[(0, 1), (1, 2)],
            &[(0, 1), (0, 2), (1, 2)],
            None,
            &[(0, 2), (1, 1), (2, 0), (3, 0)]
        )?
    );
    Ok(())
}

#[test]
fn some_come_back(rt: HostRuntime) -> Result<(), Fail> {
    let alloc = rt.alloc();
    assert!(rt; tells(alloc, 3, &[(1, 1)], &[(1, 1)], Some(1), &[(0, 0), (1, 1)])?);
    assert!(rt;
        tells(
            alloc,
            5,
            &[(4, 1), (0, 4), (1, 3), (3, 4)],
            &[
                (0, 1),
                (0, 3),
                (0, 4),
                (1, 1),
                (1, 3),
                (1, 4),
                (3, 1),
                (3, 3),
                (3, 4),
                (4, 1),
                (4, 3),
                (4, 4)
            ],
            Some(1),
            &[(0, 3), (1, 3), (2, 0)]
        )?
    );
    assert!(rt;
        tells(
            alloc,
            65,
            &[(64, 0), (0, 64)],
            &[(0, 0), (0, 64), (64, 0), (64, 64)],
            Some(0),
            &[(0, 2), (1, 0), (64, 2)]
        )?
    );
    Ok(())
}
