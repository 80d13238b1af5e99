//! What a value keeps by itself, or shares with its copies.
ghost use Rattle.std.specs.Prelude.{◌≡◌, IfOk, IfErr, IfSome};

use crate::memory::NoMemory;
use std::alloc::Global;
use std::marker::Model;
use std::sync::Arc;

#[derive(Drop)]
enum Place<V> {
    Own(V),
    Shared(Arc<V, Global>),
}

/// What one value keeps, or several share. Contracts see what is kept.
#[derive(Drop)]
pub(crate) struct Held<V> {
    place: Place<V>,
}

impl<V> Model for Held<V> {
    ghost use Rattle.yp_base.specs.Held.{held_value};

    ghost Value = { V };

    ghost view = { λ h. held_value h.place };
}

impl<V> Held<V> {
    /// Kept by one value. It takes no memory.
    pub(crate) fn own(value: V) -> Held<V>
        ensures { result ≡ value }
    {
        Held {
            place: Place::Own(value),
        }
    }

    /// What is kept.
    pub(crate) fn get(&self) -> &V
        ensures { result.now ≡ self.now }
    {
        match &self.place {
            Place::Own(value) => value,
            Place::Shared(value) => value,
        }
    }
}

impl<V: Drop> Held<V> {
    /// The same, to be shared by copies.
    pub(crate) fn share(self, alloc: Global) -> Result<Held<V>, NoMemory>
        ensures { IfOk result (λ held. held ≡ self) }
    {
        let Held { place } = self;
        let shared = match place {
            Place::Own(value) => Arc::new(alloc, value)?,
            Place::Shared(value) => value,
        };
        Ok(Held {
            place: Place::Shared(shared),
        })
    }

    /// A copy that shares what is kept; `None` where one value keeps it by itself.
    pub(crate) fn shared_copy(&self) -> Result<Option<Held<V>>, NoMemory>
        ensures { IfOk result (λ copy. IfSome copy (λ held. held ≡ self.now)) }
    {
        match &self.place {
            Place::Own(_) => Ok(None),
            Place::Shared(value) => Ok(Some(Held {
                place: Place::Shared(value.clone()?),
            })),
        }
    }

    /// What one value keeps by itself, given back; the same, where it is shared. It takes no memory.
    pub(crate) fn into_own(self) -> Result<V, Held<V>>
        ensures own { IfOk result (λ value. value ≡ self) }
        ensures shared { IfErr result (λ held. held ≡ self) }
    {
        let Held { place } = self;
        match place {
            Place::Own(value) => Ok(value),
            Place::Shared(value) => Err(Held {
                place: Place::Shared(value),
            }),
        }
    }
}
