ghost use Rattle.std.specs.Prelude.{◌≡◌, ◌↔◌, ◌≤◌, ℕ, IsTrue, IfOk};
ghost use Rattle.compiled_term.specs.CompiledTerm.{compiled};
ghost use Rattle.design_model.specs.Parts.{provided_ports, required_ports};
ghost use Rattle.design_model.specs.Rounds.{IsFeasibleIn};
ghost use Rattle.design_model.specs.Rows.{Row};
ghost use Rattle.design_model.specs.Typed.{IsTyped};
ghost use Rattle.design_term.specs.Outcomes.{Relates};
ghost use Rattle.design_term.specs.TermTypes.{TermIsTyped};
ghost use Rattle.value_type.specs.Fits.{row_fits};
ghost use Rattle.value_type.specs.PortKinds.{port_kinds};

use crate::terms::term_of;
use compiled_term::compiled_terms_are_the_designs;
use design_model::Design;
use design_term::Term;
use order_core::NoMemory;
use std::alloc::Global;
use value_type::Types;

/// The term of the design. For each number of rounds from one on it relates what fits the provided types to exactly
/// what is feasible in so many rounds.
///
/// It fails where memory is short, and where a net has more wires than a `u32` numbers.
pub fn compile(alloc: Global, types: &Types, design: &Design) -> Result<Term, NoMemory>
    requires { IsTyped types.now design.now }
    ensures compiled { IfOk result (λ term. term ≡ compiled design.now) }
    ensures typed { IfOk result (λ term. TermIsTyped types.now term (port_kinds (provided_ports design.now)) (port_kinds (required_ports design.now))) }
    ensures relation { IfOk result (λ term. (n : ℕ) (f r : Row) → 1 ≤ n → IsTrue (row_fits types.now (port_kinds (provided_ports design.now)) f)
        → Relates types.now n term f r ↔ IsFeasibleIn types.now n design.now f r) }
{
    let term = term_of(alloc, design)?;
    compiled_terms_are_the_designs();
    Ok(term)
}
