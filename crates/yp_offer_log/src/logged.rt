//! What is kept of the offers to a receiver, and its lines.
ghost use Rattle.std.specs.Prelude.{◌≡◌, ◌++◌, IfOk, OnOk, string_bytes};
ghost use Rattle.yp_offer_log.specs.Logs.{left_after, log_text, logged_text};

use std::alloc::{AllocError, Global};
use yp_base::txt::Txt;
use yp_queue::packet::PacketKind;

/// What is kept of an offer.
#[derive(Drop)]
pub enum Logged {
    /// A packet that the queue accepted: its kind and its line.
    Line { kind: PacketKind, line: Txt },
    /// The queue was full when something of a subscription was offered at a position.
    FullAt { sub: u32, position: u64 },
}

/// Adds what is told of an offer, and gives how many packets that were taken are not told yet.
fn push_logged(
    text: &mut String,
    name: &str,
    logged: &Logged,
    taken: usize,
) -> Result<usize, AllocError>
    ensures left { IfOk result (λ left. left ≡ left_after logged.now taken) }
    ensures text { OnOk result (string_bytes text.new ≡ string_bytes text.old ++ logged_text name.now logged.now taken) }
{
    match logged {
        Logged::Line { line, .. } => {
            if taken == 0 {
                return Ok(0);
            }
            let line = line.as_str();
            writeln!(text, "to {name} {line}")?;
            Ok(taken - 1)
        }
        Logged::FullAt { sub, position } => {
            writeln!(text, "full {name} {sub} {position}")?;
            Ok(taken)
        }
    }
}

/// The lines of a log, of which so many packets were taken. Each is let go once it is told.
pub fn log_text(
    alloc: Global,
    name: &str,
    log: Vec<Logged>,
    taken: usize,
) -> Result<String, AllocError>
    ensures { IfOk result (λ text. string_bytes text ≡ log_text name.now taken log.items) }
{
    let mut text = String::new(alloc);
    let mut left = taken;
    for logged in log {
        left = push_logged(&mut text, name, &logged, left)?;
    }
    Ok(text)
}
