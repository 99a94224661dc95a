use design_lexer::{BodyTree, ExprTree, FactorTree, File, Number, RuleTree, ValueTree, lex};
use design_parser::{FileKind, parse_file, parse_values};
use std::alloc::Global;
use std::test::Fail;

/// The form of an expression, with its place.
#[derive(Clone, Copy, Debug, PartialEq, Eq)]
enum Form {
    Place(u64),
    Sum(u64),
    Product(u64),
    Greatest(u64),
    Lesser(u64),
    Other,
}

fn form_of(expr: &ExprTree) -> Form {
    match expr {
        ExprTree::Place(place) => Form::Place(place.first.at),
        ExprTree::Sum { at, .. } => Form::Sum(*at),
        ExprTree::Product { at, .. } => Form::Product(*at),
        ExprTree::Greatest { at, .. } => Form::Greatest(*at),
        ExprTree::Lesser { at, .. } => Form::Lesser(*at),
        _ => Form::Other,
    }
}

/// The forms of the expression and of its two operands.
fn forms_of(expr: &ExprTree) -> [Form; 3] {
    let root = form_of(expr);
    match expr {
        ExprTree::Sum { left, right, .. } => [root, form_of(left.get()), form_of(right.get())],
        ExprTree::Product { left, right, .. } => [root, form_of(left.get()), form_of(right.get())],
        ExprTree::Greatest { left, right, .. } => [root, form_of(left.get()), form_of(right.get())],
        ExprTree::Lesser { left, right, .. } => [root, form_of(left.get()), form_of(right.get())],
        _ => [root, Form::Other, Form::Other],
    }
}

/// The forms of the expression in the only rule of the net.
fn forms(alloc: Global, text: &[u8]) -> Option<[Form; 3]> {
    let tokens = lex(alloc, text).ok()?;
    match parse_file(alloc, FileKind::Design, text, &tokens) {
        Ok(File::Design(BodyTree::Net { rules, .. })) => match rules.items() {
            [RuleTree::Above { lower, .. }] => Some(forms_of(lower)),
            _ => None,
        },
        _ => None,
    }
}

#[test]
fn products_bind_before_sums(rt: HostRuntime) -> Result<(), Fail> {
    let want = [Form::Sum(8), Form::Place(8), Form::Product(12)];
    assert_eq!(rt; forms(rt.alloc(), b"mcdp{y>=a + b * c;}"), Some(want));
    let want = [Form::Sum(8), Form::Product(8), Form::Place(16)];
    assert_eq!(rt; forms(rt.alloc(), b"mcdp{y>=a * b + c;}"), Some(want));
    Ok(())
}

#[test]
fn operators_are_read_from_the_left(rt: HostRuntime) -> Result<(), Fail> {
    let want = [Form::Sum(8), Form::Sum(8), Form::Place(16)];
    assert_eq!(rt; forms(rt.alloc(), b"mcdp{y>=a + b + c;}"), Some(want));
    let want = [Form::Product(8), Form::Product(8), Form::Place(16)];
    assert_eq!(rt; forms(rt.alloc(), b"mcdp{y>=a * b * c;}"), Some(want));
    Ok(())
}

#[test]
fn round_brackets_leave_no_node(rt: HostRuntime) -> Result<(), Fail> {
    let want = [Form::Product(9), Form::Sum(9), Form::Place(18)];
    assert_eq!(rt; forms(rt.alloc(), b"mcdp{y>=(a + b) * c;}"), Some(want));
    let want = [Form::Place(10), Form::Other, Form::Other];
    assert_eq!(rt; forms(rt.alloc(), b"mcdp{y>=((a));}"), Some(want));
    Ok(())
}

#[test]
fn calls_stand_at_their_words(rt: HostRuntime) -> Result<(), Fail> {
    let want = [Form::Greatest(8), Form::Place(12), Form::Lesser(15)];
    assert_eq!(rt;
        forms(rt.alloc(), b"mcdp{y>=max(a, min(b, c));}"),
        Some(want)
    );
    Ok(())
}

/// The numbers of the constant that the text is, its place, and how many factors its unit has.
fn numbers(alloc: Global, text: &[u8]) -> Option<(Number, Option<Number>, u64, usize)> {
    let tokens = lex(alloc, text).ok()?;
    match parse_values(alloc, text, &tokens).ok()?.items() {
        [ValueTree::Constant(tree)] => {
            Some((tree.over, tree.under, tree.at, tree.unit.items().len()))
        }
        _ => None,
    }
}

fn number(digits: u128, decimals: u8) -> Number {
    Number { digits, decimals }
}

#[test]
fn numbers_are_their_digits(rt: HostRuntime) -> Result<(), Fail> {
    assert_eq!(rt;
        numbers(rt.alloc(), b" 012.50"),
        Some((number(1250, 2), None, 1, 0))
    );
    let most = number(99999999999999999999, 19);
    assert_eq!(rt;
        numbers(rt.alloc(), b"9.9999999999999999999"),
        Some((most, None, 0, 0))
    );
    let most = number(99999999999999999999, 0);
    assert_eq!(rt;
        numbers(rt.alloc(), b"99999999999999999999"),
        Some((most, None, 0, 0))
    );
    Ok(())
}

#[test]
fn units_follow_the_last_number(rt: HostRuntime) -> Result<(), Fail> {
    let half = Some((number(1, 0), Some(number(2, 0)), 0, 3));
    assert_eq!(rt; numbers(rt.alloc(), b"1/2 kg.m/s^2"), half);
    assert_eq!(rt;
        numbers(rt.alloc(), b"30 min"),
        Some((number(30, 0), None, 0, 1))
    );
    Ok(())
}

/// Whether the factor is divided, its power is negative, the power, and the power as it is written.
fn power_of(factor: &FactorTree, written: &str) -> (bool, bool, Option<u128>, bool) {
    let is_written = factor.written.as_str() == written;
    (factor.divided, factor.negative, factor.power, is_written)
}

/// The powers of two factors.
type Powers = [(bool, bool, Option<u128>, bool); 2];

/// The powers of the two factors of the unit of the constant that the text is.
fn powers(alloc: Global, text: &[u8], written: &str) -> Option<Powers> {
    let tokens = lex(alloc, text).ok()?;
    match parse_values(alloc, text, &tokens).ok()?.items() {
        [ValueTree::Constant(tree)] => match tree.unit.items() {
            [first, second] => Some([power_of(first, ""), power_of(second, written)]),
            _ => None,
        },
        _ => None,
    }
}

#[test]
fn powers_are_kept_as_written(rt: HostRuntime) -> Result<(), Fail> {
    let plain = (false, false, None, true);
    assert_eq!(rt;
        powers(rt.alloc(), b"1 m.s^02", "02"),
        Some([plain, (false, false, Some(2), true)])
    );
    assert_eq!(rt;
        powers(rt.alloc(), b"1 m/s^-1", "1"),
        Some([plain, (true, true, Some(1), true)])
    );
    assert_eq!(rt;
        powers(rt.alloc(), b"1 m/min", ""),
        Some([plain, (true, false, None, true)])
    );
    Ok(())
}
