ghost use Rattle.std.specs.Prelude.{◌≡◌, ℕ, List};
ghost use Rattle.name_index.specs.Names.{number_of};
ghost use Rattle.name_index.specs.Places.{place_of};

use crate::shared::Shared;
use name_index::NameIndex;
use order_core::{List, Text};
use side_ports::SidePorts;

/// A branch or an instance, with the ports of what it names. Parts that name one thing share them.
#[derive(Drop)]
pub struct ScopePart {
    pub name: Text,
    pub ports: Shared<SidePorts>,
}

/// The ports that the rules of a file may name: its own, and those of its branches or instances.
#[derive(Drop)]
pub struct Scope {
    pub own: Shared<SidePorts>,
    pub parts: List<ScopePart>,
    pub(crate) numbers: NameIndex,
    pub ghost numbered: { (name : List ℕ) → number_of numbers name ≡ place_of (λ p. p.name) parts name },
}
