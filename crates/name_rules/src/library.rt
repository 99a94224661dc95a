ghost use Rattle.std.specs.Prelude.{◌≡◌};
ghost use Rattle.name_rules.specs.Known.{Known};

/// What has the names that the files of a library may name.
pub trait Library {
    /// The names.
    ghost known: { Self → Known };

    /// Whether some design or template has the name.
    fn has_design(&self, name: &str) -> bool
        ensures { result ≡ (known self.now).design name.now };

    /// Whether some interface has the name.
    fn has_interface(&self, name: &str) -> bool
        ensures { result ≡ (known self.now).interface name.now };

    /// Whether some table has the name.
    fn has_table(&self, name: &str) -> bool
        ensures { result ≡ (known self.now).table name.now };

    /// Whether some poset has the name.
    fn has_poset(&self, name: &str) -> bool
        ensures { result ≡ (known self.now).poset name.now };

    /// Whether the poset has an element of that name.
    fn has_element(&self, poset: &str, element: &str) -> bool
        ensures { result ≡ (known self.now).element poset.now element.now };
}
