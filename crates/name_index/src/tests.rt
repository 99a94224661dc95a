use crate::NameIndex;
use std::alloc::Global;
use std::test::Fail;

/// Names of 64 bytes that differ in the last one.
const LONG: [&str; 2] = [
    "aaaaaaaaaaaaaaaaaaaaaaaaaaaaaaaaaaaaaaaaaaaaaaaaaaaaaaaaaaaaaaab",
    "aaaaaaaaaaaaaaaaaaaaaaaaaaaaaaaaaaaaaaaaaaaaaaaaaaaaaaaaaaaaaaac",
];

/// Whether each name, added with its number, answers what is wanted.
fn adds(alloc: Global, index: &mut NameIndex, rows: &[(&str, u32, Option<u32>)]) -> bool {
    for (name, number, want) in rows {
        match index.add(alloc, *name, *number) {
            Ok(before) => {
                if before != *want {
                    return false;
                }
            }
            Err(_) => return false,
        }
    }
    true
}

#[test]
fn names_keep_their_first_number(rt: HostRuntime) -> Result<(), Fail> {
    let mut index = NameIndex::new(rt.alloc());
    assert_eq!(rt; index.get("motor"), None);
    let rows = [
        ("motor", 7, None),
        ("Motor", 8, None),
        ("", 9, None),
        ("motor", 1, Some(7)),
        ("", 2, Some(9)),
        (LONG[0], 3, None),
        (LONG[1], 4, None),
        (LONG[0], 5, Some(3)),
    ];
    assert!(rt; adds(rt.alloc(), &mut index, rows.as_slice()));
    assert_eq!(rt; index.get("motor"), Some(7));
    assert_eq!(rt; index.get("Motor"), Some(8));
    assert_eq!(rt; index.get("moto"), None);
    assert_eq!(rt; index.get(LONG[1]), Some(4));
    Ok(())
}
