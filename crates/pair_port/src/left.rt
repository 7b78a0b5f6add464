//! What proofs alone keep of a device. It takes no memory, and no time.
ghost use Rattle.std.specs.Prelude.{◌≡◌};
ghost use Rattle.std.specs.Borrow.{ftrue};
ghost use Rattle.dev_model.specs.declared.device.Dev.{Dev};

use std::marker::{Brand, Model, PhantomData};

/// Which device a choice takes. It is picked at the call, by `Brand`.
pub trait Choice {
    ghost use Rattle.dev_model.specs.declared.device.Dev.{Dev};

    ghost fits: { Dev → Type 0 };
}

impl Choice for Brand {
    ghost fits = { λ _. Unit {0} };
}

/// The device that is told, where what is held doesn't show it.
#[derive(Drop)]
pub struct Left {
    pub ghost device: { Dev },
}

impl Model for Left {
    ghost also_owns = { λ _. ftrue };
}

impl Left {
    /// Chooses a device that fits where there is one. What a choice is by may name both arguments.
    #[inline(always)]
    pub fn choose<S, T, C: Choice>(before: &S, after: &T) -> Left
        requires { (dev : Dev) × C.fits dev }
        ensures { C.fits result.device }
    {
        let _ = before;
        let _ = after;
        Left {}
    }
}

/// A value as it was.
#[derive(Drop)]
pub struct Seen<T> {
    of: PhantomData<T>,
    pub ghost value: { T },
}

impl<T> Model for Seen<T> {
    ghost also_owns = { λ _. ftrue };
}

impl<T> Seen<T> {
    /// Keeps the value as it is now.
    #[inline(always)]
    pub fn of(value: &T) -> Seen<T>
        ensures { result.value ≡ value.now }
    {
        let _ = value;
        Seen { of: PhantomData }
    }
}
