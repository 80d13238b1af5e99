//! What a subscription is asked for with (RFC 8639 section 2.4.2, RFC 8641 section 4.4.1), and what it is
//! amended with (RFC 8639 sections 2.4.3 and 2.5.3, RFC 8641 section 4.4.2).
use std::alloc::Global;
use yp_base::memory::{Duplicate, NoMemory};
use yp_base::notice::Trigger;
use yp_base::txt::Txt;
use yp_value::payload::Payload;

/// The filter that is asked for (RFC 8641 section 3.6).
#[derive(Drop)]
pub enum FilterAsk {
    /// None: everything.
    All,
    /// A subtree filter, which may have faults.
    Subtree(Payload),
    /// An XPath filter.
    XPath,
}

/// What a subscription is asked for with: the encoding and the datastore, each the name of an identity, the
/// filter, and when updates are sent.
#[derive(Drop)]
pub struct Ask {
    pub encoding: Txt,
    pub datastore: Txt,
    pub filter: FilterAsk,
    pub trigger: Trigger,
}

/// What a live subscription is amended with: its filter, and when updates are sent. What is absent stays as
/// it is. Of a trigger on change only the dampening period is used.
#[derive(Drop)]
pub struct Amend {
    pub filter: Option<FilterAsk>,
    pub trigger: Option<Trigger>,
}

impl Duplicate for FilterAsk {
    fn copy(&self, alloc: Global) -> Result<FilterAsk, NoMemory> {
        Ok(match self {
            FilterAsk::All => FilterAsk::All,
            FilterAsk::Subtree(json) => FilterAsk::Subtree(json.copy(alloc)?),
            FilterAsk::XPath => FilterAsk::XPath,
        })
    }
}

impl Duplicate for Ask {
    fn copy(&self, alloc: Global) -> Result<Ask, NoMemory> {
        Ok(Ask {
            encoding: self.encoding.copy(alloc)?,
            datastore: self.datastore.copy(alloc)?,
            filter: self.filter.copy(alloc)?,
            trigger: self.trigger,
        })
    }
}

impl Duplicate for Amend {
    fn copy(&self, alloc: Global) -> Result<Amend, NoMemory> {
        let filter = match &self.filter {
            Some(filter) => Some(filter.copy(alloc)?),
            None => None,
        };
        Ok(Amend {
            filter,
            trigger: self.trigger,
        })
    }
}
