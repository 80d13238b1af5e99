//! The calls that cases name, library by library.
use crate::{patches, policies, selections, windows};
use case_frame::fault::{CaseFault, OrFault};
use case_frame::frame::Calls;
use case_frame::setting::Setting;
use serde_json::Value as Json;
use std::alloc::Global;

/// The libraries that cases call, under what earlier lines set.
#[derive(Drop)]
pub struct Libraries {
    setting: Setting,
}

impl Libraries {
    /// Under a schema without nodes, and the policy before any is given.
    pub fn new(alloc: Global) -> OrFault<Libraries> {
        let setting = Setting::new(alloc)?;
        Ok(Libraries { setting })
    }
}

impl Calls for Libraries {
    fn set(&mut self, alloc: Global, line: &Json) -> OrFault<bool> {
        self.setting.set(alloc, line)
    }

    fn answer(&self, alloc: Global, call: &str, arguments: &Json) -> OrFault<String> {
        let setting = &self.setting;
        if let Some(given) = policies::answer(alloc, setting, call, arguments)? {
            return Ok(given);
        }
        if let Some(given) = selections::answer(alloc, setting, call, arguments)? {
            return Ok(given);
        }
        if let Some(given) = windows::answer(alloc, setting, call, arguments)? {
            return Ok(given);
        }
        patches::answer(alloc, &setting.schema, call, arguments)?.ok_or(CaseFault::NoSuchCall)
    }
}
