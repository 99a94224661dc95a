ghost use Rattle.std.specs.Prelude.{◌↔◌, IsTrue};
ghost use Rattle.order_core.specs.Members.{IsMember};

/// Whether the call of this number is one that fails.
pub fn fails(failing: &[u64], call: u64) -> bool
    ensures { IsTrue result ↔ IsMember call failing.now }
{
    failing.contains(&call)
}
