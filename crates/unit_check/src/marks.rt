ghost use Rattle.std.specs.Prelude.{◌≡◌, [], IfOk, OnOk, length, map, replicate};
ghost use Rattle.std.specs.List.{flat_map};
ghost use Rattle.name_index.specs.Names.{number_of};
ghost use Rattle.unit_check.specs.Connection.{placed, places_in, read};
ghost use Rattle.unit_check.specs.Marks.{AreFew, all_marked, marked};

use design_lexer::{ExprTree, PlaceTree, RuleTree};
use name_index::NameIndex;
use order_core::NoMemory;
use std::alloc::Global;

/// No port of any of so many parts.
pub fn unmarked(alloc: Global, parts: usize) -> Result<Vec<NameIndex>, NoMemory>
    ensures { IfOk result (λ marks. marks.items ≡ replicate parts []) }
{
    let mut marks = Vec::new(alloc);
    for _ in 0..parts {
        marks.push(NameIndex::new(alloc))?;
    }
    Ok(marks)
}

/// Marks the ports of parts that the rules constrain or ignore.
pub fn mark_placed(
    alloc: Global,
    parts: &NameIndex,
    rules: &[RuleTree],
    marks: &mut Vec<NameIndex>,
) -> Result<(), NoMemory>
    requires few { AreFew (number_of parts.now) marks.old.items }
    ensures size { length marks.new.items ≡ length marks.old.items }
    ensures marked { OnOk result (marks.new.items ≡ all_marked (number_of parts.now) marks.old.items (map placed rules.now)) }
{
    for rule in rules {
        mark(alloc, parts, placed(rule), marks)?;
    }
    Ok(())
}

/// The port that a rule constrains or ignores.
pub fn placed(rule: &RuleTree) -> &PlaceTree
    ensures { result.now ≡ placed rule.now }
{
    match rule {
        RuleTree::Above { place, .. } => place,
        RuleTree::Ignore(place) => place,
    }
}

/// Marks the ports of parts that the rules read or ignore.
pub fn mark_read(
    alloc: Global,
    parts: &NameIndex,
    rules: &[RuleTree],
    marks: &mut Vec<NameIndex>,
) -> Result<(), NoMemory>
    requires few { AreFew (number_of parts.now) marks.old.items }
    ensures size { length marks.new.items ≡ length marks.old.items }
    ensures marked { OnOk result (marks.new.items ≡ all_marked (number_of parts.now) marks.old.items (flat_map read rules.now)) }
{
    for rule in rules {
        match rule {
            RuleTree::Above { lower, .. } => mark_expr(alloc, lower, parts, marks)?,
            RuleTree::Ignore(place) => mark(alloc, parts, place, marks)?,
        }
    }
    Ok(())
}

/// Marks the ports of parts that the expression reads.
#[cycle(expressions)]
fn mark_expr(
    alloc: Global,
    tree: &ExprTree,
    parts: &NameIndex,
    marks: &mut Vec<NameIndex>,
) -> Result<(), NoMemory>
    requires few { AreFew (number_of parts.now) marks.old.items }
    ensures size { length marks.new.items ≡ length marks.old.items }
    ensures marked { OnOk result (marks.new.items ≡ all_marked (number_of parts.now) marks.old.items (places_in tree.now)) }
{
    match tree {
        ExprTree::Place(place) => mark(alloc, parts, place, marks),
        ExprTree::Sum { left, right, .. }
        | ExprTree::Product { left, right, .. }
        | ExprTree::Greatest { left, right, .. }
        | ExprTree::Lesser { left, right, .. } => {
            mark_expr(alloc, left.get(), parts, marks)?;
            mark_expr(alloc, right.get(), parts, marks)
        }
        ExprTree::Tuple { parts: members, .. } => mark_exprs(alloc, members.items(), parts, marks),
        _ => Ok(()),
    }
}

/// Marks those that each of the expressions reads.
#[cycle(expressions)]
fn mark_exprs(
    alloc: Global,
    trees: &[ExprTree],
    parts: &NameIndex,
    marks: &mut Vec<NameIndex>,
) -> Result<(), NoMemory>
    requires few { AreFew (number_of parts.now) marks.old.items }
    ensures size { length marks.new.items ≡ length marks.old.items }
    ensures marked { OnOk result (marks.new.items ≡ all_marked (number_of parts.now) marks.old.items (flat_map places_in trees.now)) }
{
    for tree in trees {
        mark_expr(alloc, tree, parts, marks)?;
    }
    Ok(())
}

/// Marks the port of a part that the place names.
fn mark(
    alloc: Global,
    parts: &NameIndex,
    place: &PlaceTree,
    marks: &mut Vec<NameIndex>,
) -> Result<(), NoMemory>
    requires few { AreFew (number_of parts.now) marks.old.items }
    ensures size { length marks.new.items ≡ length marks.old.items }
    ensures marked { OnOk result (marks.new.items ≡ marked (number_of parts.now) marks.old.items place.now) }
{
    if let Some(port) = &place.second
        && let Some(part) = parts.get(place.first.name.as_str())
    {
        marks[part as usize].add(alloc, port.name.as_str(), 0)?;
    }
    Ok(())
}
