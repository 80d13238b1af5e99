//! The texts of help and of the version.
ghost use Rattle.std.specs.Prelude.{◌≡◌, ◌≢◌, IfOk, None, is_some, true};
ghost use Rattle.clap.specs.Words.{fault_of, kind_of};
ghost use Rattle.clap.specs.declared.error.kind.ErrorKind.TheVariants.{OutOfMemory};
ghost use Rattle.yp_words.specs.Answers.{GivesText, is_request};
ghost use Rattle.yp_words.specs.Words.{push_app, words_in};

use crate::command::{matches_in, texts_of};
use clap::Error;
use clap::error::ErrorKind;
use std::alloc::Global;
use yp_base::memory::NoMemory;
use yp_base::txt::Txt;

/// The text of a refusal that is an answer to a request.
fn text_of(alloc: Global, error: &Error) -> Result<Option<String>, NoMemory>
    ensures { IfOk result (λ text. (kind_of error.now ≢ OutOfMemory) × (is_some text ≡ is_request (kind_of error.now))) }
{
    match error.kind() {
        ErrorKind::DisplayHelp | ErrorKind::DisplayVersion => {
            Ok(Some(format!(in alloc; "{error}")?))
        }
        ErrorKind::OutOfMemory => Err(NoMemory),
        _ => Ok(None),
    }
}

/// The text that is shown for arguments that ask for help (`--help`, `-h`) or for the version (`--version`,
/// `-V`), and `None` for others, good or bad. Arguments for which there is a text say nothing.
pub fn help_text(alloc: Global, words: &[Txt]) -> Result<Option<String>, NoMemory>
    ensures text { IfOk result (λ text. GivesText text (fault_of push_app words.now)) }
    ensures bad { IfOk result (λ text. is_some text ≡ true → words_in words.now ≡ None) }
{
    let texts = texts_of(alloc, words)?;
    match matches_in(alloc, texts.as_slice()) {
        Ok(_) => Ok(None),
        Err(error) => text_of(alloc, &error),
    }
}
