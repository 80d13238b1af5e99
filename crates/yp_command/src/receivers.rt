//! Receivers by name.
ghost use Rattle.std.specs.Prelude.{◌≡◌, ◌++◌, ◌∷◌, [], ◌<◌, ◌≤◌, length, OnOk, OnErr, IfOk, IfSome, None, option_copied, slice_get};
ghost use Rattle.yp_command.specs.Names.{receiver_number};

use indexmap::IndexMap;
use std::alloc::Global;
use std::marker::Model;
use yp_base::memory::{Duplicate, NoMemory};
use yp_base::series::Series;
use yp_journal::receiver::{ReceiverInfo, Receivers as ReceiverList};

/// At most 16 receivers, in the order of their declaration, found by their names. Contracts see the list
/// of them.
#[derive(Drop)]
pub struct Receivers {
    by_name: IndexMap<String, ReceiverInfo>,
}

impl Model for Receivers {
    ghost use Rattle.std.specs.Prelude.{◌≡◌, ◌≤◌, List, map, length};
    ghost use Rattle.std.specs.String.{string_bytes};
    ghost use Rattle.indexmap.specs.IndexMap.{keys, values};
    ghost use Rattle.yp_journal.specs.declared.receiver.ReceiverInfo.{ReceiverInfo};
    ghost use Rattle.yp_command.specs.Names.{names_of};

    ghost Value = { List ReceiverInfo };

    ghost view = { λ r. values r.by_name };

    ghost invariant = { λ r. (map string_bytes (keys r.by_name) ≡ names_of (values r.by_name)) × (length (values r.by_name) ≤ 16) };
}

impl Receivers {
    /// No receivers.
    pub fn new(alloc: Global) -> Receivers
        ensures { result ≡ [] }
    {
        Receivers {
            by_name: IndexMap::new(alloc),
        }
    }

    /// How many there are.
    pub fn len(&self) -> usize
        ensures { result ≡ length self.now }
    {
        self.by_name.len()
    }

    /// The number of the receiver of a name, from 0 on in the order of their declaration.
    pub fn number_of(&self, name: &str) -> Option<usize>
        ensures number { result ≡ receiver_number self.now name.now }
        ensures within { IfSome result (λ number. number < length self.now) }
        ensures few { length self.now ≤ 16 }
    {
        self.by_name.get_index_of(name)
    }

    /// The receiver of this number.
    pub fn get(&self, number: usize) -> Option<&ReceiverInfo>
        ensures { option_copied result ≡ slice_get self.now number }
    {
        match self.by_name.get_index(number) {
            Some((_, receiver)) => Some(receiver),
            None => None,
        }
    }

    /// One receiver more, of 16 at most, whose name no other has. After want of memory nothing is changed.
    pub fn push(&mut self, alloc: Global, receiver: ReceiverInfo) -> Result<(), NoMemory>
        requires new { receiver_number self.old receiver.name ≡ None }
        requires room { length self.old < 16 }
        ensures ok { OnOk result (self.new ≡ self.old ++ receiver ∷ []) }
        ensures err { OnErr result (self.new ≡ self.old) }
    {
        let name = String::from_str(alloc, receiver.name.as_str())?;
        self.by_name.insert(name, receiver)?;
        Ok(())
    }

    /// The receivers as a list.
    pub fn list(&self, alloc: Global) -> Result<ReceiverList, NoMemory>
        ensures { IfOk result (λ list. list ≡ self.now) }
    {
        let mut list = Vec::new(alloc);
        while let Some(receiver) = self.get(list.len()) {
            list.push(receiver.copy(alloc)?)?;
        }
        Ok(Series::from_vec(list))
    }
}
