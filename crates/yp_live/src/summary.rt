//! What a run comes to.
ghost use Rattle.std.specs.Prelude.{◌≡◌, ◌+◌, ◌++◌, count_by, sum_by, IfOk, OnOk, string_bytes};
ghost use Rattle.yp_live.specs.Counts.{count_desk, desk_rows, summary_from, told_lines};
ghost use Rattle.yp_live.specs.Summary.{count_line, is_refusal};

use crate::counted::Counted;
use crate::desk::Desk;
use std::alloc::{AllocError, Global};
use std::sync::ledger::Ledger;
use yp_base::memory::NoMemory;
use yp_base::steps::Steps;
use yp_journal::reply::Reply;
use yp_report::replied::Replied;

/// The sum of two numbers. There is no memory for more than can be counted.
pub fn sum(one: usize, other: usize) -> Result<usize, NoMemory>
    ensures { IfOk result (λ sum. sum ≡ one + other) }
{
    match one.checked_add(other) {
        Some(sum) => Ok(sum),
        None => Err(NoMemory),
    }
}

/// Whether a reply tells of a refusal.
fn is_refusal(reply: &Reply) -> bool
    ensures { result ≡ is_refusal reply.now }
{
    match reply {
        Reply::Id(_) => false,
        Reply::Done => false,
        Reply::Registry(_) => true,
        Reply::Edit { .. } => true,
    }
}

/// How many replies tell of refusals.
fn count_refused(replies: &[Replied]) -> Result<usize, NoMemory>
    ensures { IfOk result (λ count. count ≡ count_by (λ replied. is_refusal replied.reply) replies.now) }
{
    let mut count = 0;
    for replied in replies {
        if is_refusal(&replied.reply) {
            count = sum(count, 1)?;
        }
    }
    Ok(count)
}

/// How often something is told of all receivers.
fn count_told(desks: &[Desk], counted: Counted) -> Result<usize, NoMemory>
    ensures { IfOk result (λ count. count ≡ sum_by (count_desk counted) desks.now) }
{
    let mut count = 0;
    for desk in desks {
        count = sum(count, desk.count(counted))?;
    }
    Ok(count)
}

/// How many rows all receivers hold.
fn count_rows<L: Ledger>(
    alloc: Global,
    desks: &[Desk],
    steps: &mut Steps<L>,
) -> Result<usize, NoMemory>
    ensures { IfOk result (λ count. count ≡ sum_by desk_rows desks.now) }
{
    let mut count = 0;
    for desk in desks {
        count = sum(count, desk.count_rows(alloc, steps)?)?;
    }
    Ok(count)
}

/// Adds the line of a number.
fn push_count(text: &mut String, name: &str, count: usize) -> Result<(), AllocError>
    ensures { OnOk result (string_bytes text.new ≡ string_bytes text.old ++ count_line name.now count) }
{
    writeln!(text, "{name} {count}")
}

/// Adds how often something is told of all receivers.
fn push_told(
    text: &mut String,
    name: &str,
    desks: &[Desk],
    counted: Counted,
) -> Result<(), NoMemory>
    ensures { OnOk result (string_bytes text.new ≡ string_bytes text.old ++ count_line name.now (sum_by (count_desk counted) desks.now)) }
{
    let count = count_told(desks, counted)?;
    push_count(text, name, count)?;
    Ok(())
}

/// Adds how often each is told of all receivers.
fn push_all_told(text: &mut String, desks: &[Desk]) -> Result<(), NoMemory>
    ensures { OnOk result (string_bytes text.new ≡ string_bytes text.old ++ told_lines desks.now) }
{
    push_told(text, "full-updates", desks, Counted::FullUpdates)?;
    push_told(text, "change-updates", desks, Counted::ChangeUpdates)?;
    push_told(text, "notices", desks, Counted::Notices)?;
    push_told(text, "fulls", desks, Counted::FullQueues)?;
    Ok(())
}

/// The text of what replies and desks come to.
pub fn summary_text<L: Ledger>(
    alloc: Global,
    replies: &[Replied],
    desks: &[Desk],
    steps: &mut Steps<L>,
) -> Result<String, NoMemory>
    ensures { IfOk result (λ text. string_bytes text ≡ summary_from replies.now desks.now) }
{
    let mut text = String::new(alloc);
    let refused = count_refused(replies)?;
    let rows = count_rows(alloc, desks, steps)?;
    push_count(&mut text, "commands", replies.len())?;
    push_count(&mut text, "refused", refused)?;
    push_all_told(&mut text, desks)?;
    push_count(&mut text, "tree-rows", rows)?;
    text.push_str("end\n")?;
    Ok(text)
}
