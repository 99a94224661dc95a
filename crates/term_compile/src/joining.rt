ghost use Rattle.std.specs.Prelude.{◌≡◌, ◌++◌, [], ◌∷◌, IfOk};
ghost use Rattle.design_term.specs.declared.term.Term.TheVariants as term;
ghost use Rattle.compiled_term.specs.Joined.{pairs, joined};

use design_term::Term;
use order_core::{Boxed, List, NoMemory};
use std::alloc::Global;

/// The terms in series.
pub fn joined(alloc: Global, terms: Vec<Term>) -> Result<Term, NoMemory>
    ensures { IfOk result (λ made. made ≡ joined terms.items) }
{
    let mut left = terms;
    while left.len() > 1 {
        left = pairs(alloc, left)?;
    }
    match left.pop() {
        Some(term) => Ok(term),
        None => Ok(Term::Alt(List::of(Vec::new(alloc)))),
    }
}

/// Each two neighbours in a series.
fn pairs(alloc: Global, terms: Vec<Term>) -> Result<Vec<Term>, NoMemory>
    ensures { IfOk result (λ made. made.items ≡ pairs terms.items) }
{
    let mut made = Vec::new(alloc);
    let mut waiting = None;
    for term in terms {
        match waiting.take() {
            Some(before) => push_series(alloc, before, term, &mut made)?,
            None => waiting = Some(term),
        }
    }
    if let Some(last) = waiting
        && made.push(last).is_err()
    {
        return Err(NoMemory);
    }
    Ok(made)
}

fn push_series(
    alloc: Global,
    first: Term,
    second: Term,
    into: &mut Vec<Term>,
) -> Result<(), NoMemory>
    ensures { IfOk result (λ _. into.new.items ≡ into.old.items ++ term.Series first second ∷ []) }
{
    let first = Boxed::of(alloc, first)?;
    let second = Boxed::of(alloc, second)?;
    into.push(Term::Series(first, second)).map_err(|_| NoMemory)
}
