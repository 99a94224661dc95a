ghost use Rattle.std.specs.Option.{option_copied};
ghost use Rattle.std.specs.Prelude.{◌≡◌, ◌++◌, ◌==◌, Some, cond, map, slice_get, IfOk};
ghost use Rattle.design_model.specs.Parts.{required_ports};
ghost use Rattle.design_model.specs.Wiring.{kind_at};
ghost use Rattle.value_type.specs.PortKinds.{port_kinds};

use cut_plan::Signal;
use design_model::Part;
use order_core::NoMemory;
use std::alloc::Global;
use value_type::{Kind, Port};

/// The types of the signals. It fails where a signal is no required port of one of the parts.
pub fn signal_kinds(
    alloc: Global,
    parts: &[Part],
    signals: &[Signal],
) -> Result<Vec<Kind>, NoMemory>
    ensures { IfOk result (λ made. map Some made.items ≡ map (λ s. kind_at (map (λ p. port_kinds (required_ports p.design)) parts.now) s.part s.port) signals.now) }
{
    let mut kinds = Vec::new(alloc);
    for signal in signals {
        let Some(kind) = signal_kind(parts, signal) else {
            return Err(NoMemory);
        };
        if kinds.push(kind.copy(alloc)?).is_err() {
            return Err(NoMemory);
        }
    }
    Ok(kinds)
}

/// The type of the signal, if it is a required port of one of the parts.
fn signal_kind<'a>(parts: &'a [Part], signal: &Signal) -> Option<&'a Kind>
    ensures { option_copied result ≡ kind_at (map (λ p. port_kinds (required_ports p.design)) parts.now) signal.now.part signal.now.port }
{
    match parts.get(signal.part as usize) {
        Some(part) => kind_of(part.design.required_ports(), signal.port),
        None => None,
    }
}

/// The type of the port of this number, if it is there.
fn kind_of(ports: &[Port], port: u32) -> Option<&Kind>
    ensures { option_copied result ≡ slice_get (port_kinds ports.now) port }
{
    match ports.get(port as usize) {
        Some(port) => Some(&port.kind),
        None => None,
    }
}

/// Adds the types of the ports.
pub fn push_port_kinds(alloc: Global, ports: &[Port], into: &mut Vec<Kind>) -> Result<(), NoMemory>
    ensures { IfOk result (λ _. into.new.items ≡ into.old.items ++ port_kinds ports.now) }
{
    for port in ports {
        let kind = port.kind.copy(alloc)?;
        if into.push(kind).is_err() {
            return Err(NoMemory);
        }
    }
    Ok(())
}

/// Adds types equal to these.
fn push_kinds(alloc: Global, kinds: &[Kind], into: &mut Vec<Kind>) -> Result<(), NoMemory>
    ensures { IfOk result (λ _. into.new.items ≡ into.old.items ++ kinds.now) }
{
    for kind in kinds {
        let kind = kind.copy(alloc)?;
        if into.push(kind).is_err() {
            return Err(NoMemory);
        }
    }
    Ok(())
}

/// The types of what a net of so many cut signals is given.
pub fn given_kinds(
    alloc: Global,
    signals: usize,
    provides: &[Port],
    state: &[Kind],
) -> Result<Vec<Kind>, NoMemory>
    ensures { IfOk result (λ made. made.items ≡ cond (signals == 0) (port_kinds provides.now) (port_kinds provides.now ++ state.now)) }
{
    let mut kinds = Vec::new(alloc);
    push_port_kinds(alloc, provides, &mut kinds)?;
    if signals == 0 {
        return Ok(kinds);
    }
    push_kinds(alloc, state, &mut kinds)?;
    Ok(kinds)
}
