ghost use Rattle.std.specs.Prelude.{◌≡◌, option_map};
ghost use Rattle.side_ports.specs.Held.{sides_held};
ghost use Rattle.unit_check.specs.Held.{ports_held};
ghost use Rattle.unit_check.specs.Rules.{is_port};
ghost use Rattle.unit_check.specs.Scopes.{part_at, readable, target};

use crate::scope::Scope;
use design_lexer::PlaceTree;
use design_model::{Expr, Greater};
use expr_lower::{Lower, Readable};
use order_core::NoMemory;
use side_ports::SidePorts;
use std::alloc::Global;
use value_type::Kind;

impl Scope {
    /// The number of the part of this name, and its ports.
    fn part(&self, name: &str) -> Option<(u32, &SidePorts)>
        ensures { option_map (λ part. (part.0, sides_held part.1.now)) result ≡ part_at (ports_held self.now).parts name.now }
    {
        let number = self.numbers.get(name)?;
        let part = self.parts.get(number as usize)?;
        Some((number, part.ports.get()))
    }

    /// The own provided port, or the part's required port, that a place names.
    fn lower_port(&self, place: &PlaceTree) -> Option<(Expr, &Kind)>
        ensures { option_map (λ port. record { kind = port.1.now; expr = port.0 }) result ≡ readable (ports_held self.now) place.now }
    {
        let first = place.first.name.as_str();
        match &place.second {
            None => {
                let (number, kind) = self.own.get().provided(first)?;
                Some((Expr::Own(number), kind))
            }
            Some(second) => {
                let (part, ports) = self.part(first)?;
                let (number, kind) = ports.required(second.name.as_str())?;
                Some((Expr::Inner(part, number), kind))
            }
        }
    }

    /// The own required port, or the part's provided port, that a place names, with its type.
    pub fn greater_port(&self, place: &PlaceTree) -> Option<(Greater, &Kind)>
        ensures { option_map (λ port. record { greater = port.0; kind = port.1.now }) result ≡ target (ports_held self.now) place.now }
    {
        let first = place.first.name.as_str();
        match &place.second {
            None => {
                let (number, kind) = self.own.get().required(first)?;
                Some((Greater::Own(number), kind))
            }
            Some(second) => {
                let (part, ports) = self.part(first)?;
                let (number, kind) = ports.provided(second.name.as_str())?;
                Some((Greater::Inner(part, number), kind))
            }
        }
    }

    /// Whether the place names an own port, or a port of a part, of either side.
    pub fn has_port(&self, place: &PlaceTree) -> bool
        ensures { result ≡ is_port (ports_held self.now) place.now }
    {
        let first = place.first.name.as_str();
        match &place.second {
            None => self.own.get().has(first),
            Some(second) => match self.part(first) {
                Some((_, ports)) => ports.has(second.name.as_str()),
                None => false,
            },
        }
    }
}

impl Readable for Scope {
    ghost readable = { λ scope. readable (ports_held scope) };

    fn read(&self, alloc: Global, place: &PlaceTree) -> Result<Option<Lower>, NoMemory> {
        match self.lower_port(place) {
            Some((expr, kind)) => {
                let kind = kind.copy(alloc)?;
                Ok(Some(Lower { kind, expr }))
            }
            None => Ok(None),
        }
    }
}
