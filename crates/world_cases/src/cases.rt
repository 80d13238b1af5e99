//! Cases, one after another.
use crate::plan::{BadCase, Plan};
use crate::run::run_script;
use std::alloc::Global;
use yp_script::reading::read_script;

/// What the events of cases come to. Between two cases stands an empty line.
pub fn report(alloc: Global, text: &str) -> anyhow::Result<String> {
    let mut told = String::new(alloc);
    for case in text.split("\n\n") {
        if !case.trim().is_empty() {
            run_case(alloc, case, &mut told)?;
        }
    }
    Ok(told)
}

/// Tells what the events of a case come to, and then its end.
fn run_case(alloc: Global, case: &str, told: &mut String) -> anyhow::Result<()> {
    let (head, script) = case.split_once('\n').ok_or(BadCase)?;
    let plan = Plan::read(alloc, head)?;
    let script = read_script(alloc, script.as_bytes())?;
    run_script(alloc, script, &plan, told)?;
    told.push_str("end\n")?;
    Ok(())
}
