ghost use Rattle.std.specs.Prelude.{◌≡◌, IfOk};
ghost use Rattle.term_compile.specs.Given.{looped};

use crate::numbers::{number_after, numbers_from};
use design_term::{Primitive, Term};
use order_core::{Boxed, List, NoMemory};
use std::alloc::Global;
use value_type::Kind;

/// The term of a net of so many cut signals, where the body leads to the next state. With cut signals it is a loop over
/// states of these types, of which the own required values are kept.
pub fn looped(
    alloc: Global,
    signals: usize,
    state: List<Kind>,
    required: List<Kind>,
    body: Term,
) -> Result<Term, NoMemory>
    ensures { IfOk result (λ made. made ≡ looped signals state required body) }
{
    if signals == 0 {
        return Ok(body);
    }
    let places = numbers_from(alloc, number_after(0, signals)?, required.items().len())?;
    let body = Boxed::of(alloc, body)?;
    let first = Boxed::of(alloc, Term::Loop { state, body })?;
    let keep = Term::Prim(Primitive::Keep {
        kinds: required,
        places,
    });
    let second = Boxed::of(alloc, keep)?;
    Ok(Term::Series(first, second))
}
