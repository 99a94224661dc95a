ghost use Rattle.std.specs.Prelude.{◌≡◌, IfOk};
ghost use Rattle.value_type.specs.Fits.{row_fits};
ghost use Rattle.value_type.specs.PortKinds.{port_kinds};
ghost use Rattle.value_type.specs.Leq.{row_leq};

use crate::copy::copy_unit;
use crate::kind::Kind;
use crate::poset::Types;
use crate::value::Value;
use order_core::{List, NoMemory, Text};
use std::alloc::Global;

/// How a port's values are written and printed.
#[derive(Debug, Drop)]
pub enum PortUnit {
    /// Plain numbers.
    Nat,
    /// Numbers of units: the unit as it is written, and how many grid counts one of it is.
    Unit { text: Text, size: u64 },
    /// Elements or upper sets of a poset.
    Poset,
    /// Tuples, with one of these for each part.
    Parts(List<PortUnit>),
}

impl PortUnit {
    /// A unit equal to this one.
    pub fn copy(&self, alloc: Global) -> Result<PortUnit, NoMemory>
        ensures { IfOk result (λ made. made ≡ self.now) }
    {
        copy_unit(alloc, self)
    }
}

/// A port of a design: what it provides or requires.
///
/// It is whole where its unit has the form of its type.
#[derive(Debug, Drop)]
pub struct Port {
    pub name: Text,
    pub kind: Kind,
    pub unit: PortUnit,
}

impl Port {
    /// A port equal to this one.
    pub fn copy(&self, alloc: Global) -> Result<Port, NoMemory>
        ensures { IfOk result (λ made. made ≡ self.now) }
    {
        Ok(Port {
            name: self.name.copy(alloc)?,
            kind: self.kind.copy(alloc)?,
            unit: self.unit.copy(alloc)?,
        })
    }
}

/// Ports equal to these, in order.
pub fn copy_ports(alloc: Global, ports: &[Port]) -> Result<List<Port>, NoMemory>
    ensures { IfOk result (λ made. made ≡ ports.now) }
{
    let mut made = Vec::new(alloc);
    for port in ports {
        let copy = port.copy(alloc)?;
        if made.push(copy).is_err() {
            return Err(NoMemory);
        }
    }
    Ok(List::of(made))
}

/// The types of the ports, in order.
pub fn kinds_of(alloc: Global, ports: &[Port]) -> Result<List<Kind>, NoMemory>
    ensures { IfOk result (λ kinds. kinds ≡ port_kinds ports.now) }
{
    let mut kinds = Vec::new(alloc);
    for port in ports {
        let kind = port.kind.copy(alloc)?;
        if kinds.push(kind).is_err() {
            return Err(NoMemory);
        }
    }
    Ok(List::of(kinds))
}

/// Whether there is one value for each port, and is one of its type.
pub fn ports_fit(types: &Types, ports: &[Port], values: &[Value]) -> bool
    ensures { result ≡ row_fits types.now (port_kinds ports.now) values.now }
{
    if ports.len() != values.len() {
        return false;
    }
    for (at, port) in ports.iter().enumerate() {
        if !types.fits(&port.kind, &values[at]) {
            return false;
        }
    }
    true
}

/// Whether there are two values for each port, and each of the first is at most its partner.
pub fn ports_leq(types: &Types, ports: &[Port], xs: &[Value], ys: &[Value]) -> bool
    ensures { result ≡ row_leq types.now (port_kinds ports.now) xs.now ys.now }
{
    if ports.len() != xs.len() {
        return false;
    }
    if ports.len() != ys.len() {
        return false;
    }
    for (at, port) in ports.iter().enumerate() {
        if !types.leq(&port.kind, &xs[at], &ys[at]) {
            return false;
        }
    }
    true
}
