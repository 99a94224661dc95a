use design_lexer::{ExprTree, NameAt, PlaceTree};
use order_core::{Boxed, Text};
use std::test::Fail;

fn name_at(name: String, at: u64) -> NameAt {
    NameAt {
        name: Text::of(name),
        at,
    }
}

fn place(name: String, at: u64) -> ExprTree {
    ExprTree::Place(PlaceTree {
        first: name_at(name, at),
        second: None,
    })
}

/// The place of a sum or a product, if the tree is one.
fn place_of(tree: &ExprTree) -> Option<u64> {
    match tree {
        ExprTree::Sum { at, .. } => Some(*at),
        ExprTree::Product { at, .. } => Some(*at),
        _ => None,
    }
}

#[test]
fn trees_hold_trees(rt: HostRuntime) -> Result<(), Fail> {
    let left = place(format!(in rt.alloc(); "a")?, 3);
    let right = place(format!(in rt.alloc(); "b")?, 7);
    let sum = ExprTree::Sum {
        left: Boxed::of(rt.alloc(), left)?,
        right: Boxed::of(rt.alloc(), right)?,
        at: 3,
    };
    assert_eq!(rt; place_of(&sum), Some(3));
    Ok(())
}
