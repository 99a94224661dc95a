ghost use Rattle.std.specs.Prelude.{◌≡◌, ◌<◌, ◌^◌, ℕ, List, [], IfOk, length, option_map};
ghost use Rattle.std.specs.List.{flat_map};
ghost use Rattle.design_lexer.specs.declared.tree.Side.TheVariants as side;
ghost use Rattle.fault_list.specs.Answers.{Answers};
ghost use Rattle.name_index.specs.Names.{number_of};
ghost use Rattle.name_index.specs.Places.{place_of};
ghost use Rattle.side_ports.specs.Sides.{has_port, port_at, side_ports};
ghost use Rattle.tree_units.specs.Ports.{port_faults};

use design_lexer::{PortTree, Side};
use fault_list::{Fault, Stop};
use name_index::NameIndex;
use order_core::{List, NoMemory};
use std::alloc::Global;
use tree_units::port_of;
use value_type::{Kind, Port};

/// The ports of a file, by their sides. Each is found by its name, however many there are.
#[derive(Drop)]
pub struct SidePorts {
    pub provides: List<Port>,
    pub requires_: List<Port>,
    provided: NameIndex,
    required: NameIndex,
    pub ghost provided_are: { (name : List ℕ) → number_of provided name ≡ place_of (λ p. p.name) provides name },
    pub ghost required_are: { (name : List ℕ) → number_of required name ≡ place_of (λ p. p.name) requires_ name },
}

impl SidePorts {
    /// No ports.
    pub fn none(alloc: Global) -> SidePorts
        ensures provides { result.provides ≡ [] }
        ensures required { result.requires_ ≡ [] }
    {
        SidePorts {
            provides: List::of(Vec::new(alloc)),
            requires_: List::of(Vec::new(alloc)),
            provided: NameIndex::new(alloc),
            required: NameIndex::new(alloc),
        }
    }

    /// The number of the provided port of this name, and its type.
    pub fn provided(&self, name: &str) -> Option<(u32, &Kind)>
        ensures { option_map (λ port. (port.0, port.1.now)) result ≡ port_at self.now.provides name.now }
    {
        let number = self.provided.get(name)?;
        let port = self.provides.get(number as usize)?;
        Some((number, &port.kind))
    }

    /// The number of the required port of this name, and its type.
    pub fn required(&self, name: &str) -> Option<(u32, &Kind)>
        ensures { option_map (λ port. (port.0, port.1.now)) result ≡ port_at self.now.requires_ name.now }
    {
        let number = self.required.get(name)?;
        let port = self.requires_.get(number as usize)?;
        Some((number, &port.kind))
    }

    /// Whether a side has a port of this name.
    pub fn has(&self, name: &str) -> bool
        ensures { result ≡ has_port (record { provides = self.now.provides; requires_ = self.now.requires_ }) name.now }
    {
        self.provided(name).is_some() || self.required(name).is_some()
    }
}

/// The ports that the trees write, by their sides, or the first fault of their types.
pub fn side_ports(
    alloc: Global,
    trees: &[PortTree],
    posets: &NameIndex,
) -> Result<SidePorts, Stop<Fault>>
    requires few { length trees.now < 2 ^ 32 }
    ensures { Answers (flat_map (port_faults (number_of posets.now)) trees.now) (λ made. (made.provides ≡ side_ports (number_of posets.now) side.Provides trees.now) × (made.requires_ ≡ side_ports (number_of posets.now) side.Requires trees.now)) result }
{
    let mut provides = Vec::new(alloc);
    let mut requires_ = Vec::new(alloc);
    for tree in trees {
        let port = port_of(alloc, tree, posets)?;
        match tree.side {
            Side::Provides => provides.push(port)?,
            Side::Requires => requires_.push(port)?,
        }
    }
    let provided = port_numbers(alloc, provides.as_slice())?;
    let required = port_numbers(alloc, requires_.as_slice())?;
    Ok(SidePorts {
        provides: List::of(provides),
        requires_: List::of(requires_),
        provided,
        required,
    })
}

/// The names of the ports, each with the place of the first port that has it.
fn port_numbers(alloc: Global, ports: &[Port]) -> Result<NameIndex, NoMemory>
    requires few { length ports.now < 2 ^ 32 }
    ensures { IfOk result (λ names. (name : List ℕ) → number_of names name ≡ place_of (λ p. p.name) ports.now name) }
{
    let mut names = NameIndex::new(alloc);
    for (at, port) in ports.iter().enumerate() {
        names.add(alloc, port.name.as_str(), at as u32)?;
    }
    Ok(names)
}
