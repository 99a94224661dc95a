ghost use Rattle.std.specs.Prelude.{◌≡◌};
ghost use Rattle.design_lexer.specs.declared.tree.ArgTree.{out-ArgTree};
ghost use Rattle.design_lexer.specs.declared.tree.NameAt.{NameAt};

use design_lexer::{ArgTree, BranchTree, NameAt, ParamTree, PortTree, RowTree};

/// What has a name in a file.
pub trait Named {
    /// Its name, and where that stands.
    ghost named: { Self → NameAt };

    /// Its name, and where that stands.
    fn name(&self) -> &NameAt
        ensures { result.now ≡ named self.now };
}

impl Named for NameAt {
    ghost named = { λ name. name };

    fn name(&self) -> &NameAt
        ensures { result.now ≡ self.now }
    {
        self
    }
}

impl Named for PortTree {
    ghost named = { λ port. port.name };

    fn name(&self) -> &NameAt
        ensures { result.now ≡ self.now.name }
    {
        &self.name
    }
}

impl Named for RowTree {
    ghost named = { λ row. row.name };

    fn name(&self) -> &NameAt
        ensures { result.now ≡ self.now.name }
    {
        &self.name
    }
}

impl Named for BranchTree {
    ghost named = { λ branch. branch.name };

    fn name(&self) -> &NameAt
        ensures { result.now ≡ self.now.name }
    {
        &self.name
    }
}

impl Named for ParamTree {
    ghost named = { λ param. param.name };

    fn name(&self) -> &NameAt
        ensures { result.now ≡ self.now.name }
    {
        &self.name
    }
}

impl Named for ArgTree {
    ghost named = { λ argument. (out-ArgTree argument).name };

    fn name(&self) -> &NameAt
        ensures { result.now ≡ (out-ArgTree self.now).name }
    {
        &self.name
    }
}
