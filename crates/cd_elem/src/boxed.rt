// One value on the heap, which contracts see as the value.
ghost use Rattle.std.specs.Prelude.{◌≡◌, IfOk, IfErr};

use std::alloc::Global;
use std::marker::Model;

/// A `Box` that contracts see as what it holds. It stands where a type leads back to itself through one member.
#[derive(Drop)]
pub struct Boxed<T> {
    inner: Box<T>,
}

impl<T> Model for Boxed<T> {
    ghost Value = { T };

    ghost coded = { T.code };

    ghost view = { λ boxed. boxed.inner.value };
}

impl<T> Boxed<T> {
    /// It is refused for want of memory alone, and then hands the item back.
    pub fn new(alloc: Global, item: T) -> Result<Boxed<T>, T>
        ensures ok { IfOk result (λ boxed. boxed ≡ item) }
        ensures given_back { IfErr result (λ back. back ≡ item) }
    {
        match Box::new(alloc, item) {
            Ok(inner) => Ok(Boxed { inner }),
            Err(refused) => Err(refused.value),
        }
    }

    pub fn get(&self) -> &T
        ensures { result.now ≡ self.now }
    {
        &self.inner
    }

    /// The value itself. It takes no memory.
    pub fn into_inner(self) -> T
        ensures { result ≡ self }
    {
        let Boxed { inner } = self;
        Box::into_inner(inner)
    }
}
