//! Access operations (RFC 8341 section 3.3.4).
ghost use Rattle.std.specs.Prelude.{◌≡◌, ◌∷◌, [], ◌<◌, length, MatchOption, option_copied};
ghost use Rattle.yp_base.specs.Types.{is_among};
ghost use Rattle.yp_nacm_text.specs.Rules.{words_in, operation_words, are_operations, operations_by, operations_in};

/// Which of the operations that are decided on here a rule is about.
#[derive(Drop, Clone, Copy, PartialEq, Eq)]
pub struct Operations {
    pub read: bool,
    pub exec: bool,
}

/// All operations.
const ALL: Operations = Operations {
    read: true,
    exec: true,
};

/// The first word of a text and the text after its space, where there is one.
#[tactic(auto, using(crate::proofs::Words::one_word, crate::proofs::Words::more_words, crate::proofs::Words::rest_shorter))]
fn first_word(text: &str) -> Option<(&str, &str)>
    ensures { MatchOption result (words_in text.now ≡ text.now ∷ [])
        (λ x. (words_in text.now ≡ x.0.now ∷ words_in x.1.now) × (length x.1.now < length text.now)) }
{
    text.split_once(' ')
}

/// Whether a word is among those of a text.
fn has_word(text: &str, word: &str) -> bool
    ensures { result ≡ is_among word.now (words_in text.now) }
{
    let mut rest = text;
    while let Some((first, more)) = first_word(rest) {
        if word == first {
            return true;
        }
        rest = more;
    }
    word == rest
}

/// Whether a word is an operation.
fn is_operation(word: &str) -> bool
    ensures { result ≡ is_among word.now operation_words }
{
    word == "create" || word == "read" || word == "update" || word == "delete" || word == "exec"
}

/// Whether each word of a text is an operation, and none stands twice.
fn are_operations(text: &str) -> bool
    ensures { result ≡ are_operations (words_in text.now) }
{
    let mut rest = text;
    while let Some((word, more)) = first_word(rest) {
        if !is_operation(word) || has_word(more, word) {
            return false;
        }
        rest = more;
    }
    is_operation(rest)
}

/// The operations of a text.
fn operations_by(text: &str) -> Option<Operations>
    ensures { result ≡ operations_by text.now }
{
    if text == "*" {
        return Some(ALL);
    }
    if are_operations(text) {
        Some(Operations {
            read: has_word(text, "read"),
            exec: has_word(text, "exec"),
        })
    } else {
        None
    }
}

/// The operations that a rule is about, all where they are left out.
pub fn operations_in(text: Option<&str>) -> Option<Operations>
    ensures { result ≡ operations_in (option_copied text.entry) }
{
    match text {
        Some(text) => operations_by(text),
        None => Some(ALL),
    }
}
