ghost use Rattle.std.specs.Prelude.{◌≡◌};
ghost use Rattle.reference_check.specs.Fronts.{sides_outlined};
ghost use Rattle.reference_rules.specs.Outlines.{outlines, same_list, same_outline, same_outlines};
ghost use Rattle.side_ports.specs.Held.{sides_held};

use side_ports::SidePorts;
use value_type::Port;

/// Whether two ports have the same name and type.
fn is_same(a: &Port, b: &Port) -> bool
    ensures { result ≡ same_outline (record { name = a.now.name; kind = a.now.kind }) (record { name = b.now.name; kind = b.now.kind }) }
{
    a.name.as_str() == b.name.as_str() && a.kind.is_same(&b.kind)
}

/// Whether ports have the same names and types in the same order.
pub fn are_alike(xs: &[Port], ys: &[Port]) -> bool
    ensures { result ≡ same_list (outlines xs.now) (outlines ys.now) }
{
    if xs.len() != ys.len() {
        return false;
    }
    for (at, x) in xs.iter().enumerate() {
        if !is_same(x, &ys[at]) {
            return false;
        }
    }
    true
}

/// Whether the ports of both sides have the same names and types in the same order. Units don't count.
pub fn are_same(a: &SidePorts, b: &SidePorts) -> bool
    ensures { result ≡ same_outlines (sides_outlined (sides_held a.now)) (sides_outlined (sides_held b.now)) }
{
    are_alike(a.provides.items(), b.provides.items())
        && are_alike(a.requires_.items(), b.requires_.items())
}
