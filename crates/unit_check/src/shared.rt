ghost use Rattle.std.specs.Prelude.{◌≡◌, IfOk};

use order_core::NoMemory;
use std::alloc::Global;
use std::marker::Model;
use std::rc::Rc;

/// A value that several owners share. Contracts see the value.
#[derive(Drop)]
pub struct Shared<T> {
    inner: Rc<T>,
}

impl<T> Model for Shared<T> {
    ghost Value = { T };

    ghost coded = { T.code };

    ghost view = { λ shared. shared.inner.value };
}

impl<T> Shared<T> {
    /// The value.
    pub fn get(&self) -> &T
        ensures { result.now ≡ self.now }
    {
        self.inner.as_ref()
    }
}

impl<T: Drop> Shared<T> {
    /// The first owner of the value.
    pub fn of(alloc: Global, value: T) -> Result<Shared<T>, NoMemory>
        ensures { IfOk result (λ shared. shared ≡ value) }
    {
        match Rc::new(alloc, value) {
            Ok(inner) => Ok(Shared { inner }),
            Err(_) => Err(NoMemory),
        }
    }

    /// One more owner.
    pub fn share(&self) -> Result<Shared<T>, NoMemory>
        ensures { IfOk result (λ shared. shared ≡ self.now) }
    {
        match self.inner.clone() {
            Ok(inner) => Ok(Shared { inner }),
            Err(_) => Err(NoMemory),
        }
    }
}
