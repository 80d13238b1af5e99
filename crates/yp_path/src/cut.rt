//! Texts cut at a mark.
ghost use Rattle.std.specs.Prelude.{◌≡◌, ◌<◌, ◌==◌, ◌∷◌, false, length, MatchOption, position};
ghost use Rattle.std.specs.List.{position_or_len, before_first, after_first};
ghost use Rattle.yp_base.specs.Cuts.{begins};

/// Where the first such byte stands. Most marks come within a few bytes, where a search by words costs
/// more than one by bytes.
fn first_place(bytes: &[u8], mark: u8) -> Option<usize>
    ensures { result ≡ position (λ b. b == mark) bytes.now }
{
    bytes.iter().position(|byte| *byte == mark)
}

/// What stands before the first mark, and what stands after it.
pub fn cut_once(text: &str, mark: char) -> Option<(&str, &str)>
    requires { mark < 128 }
    ensures { MatchOption result (position_or_len (λ b. b == mark) text.now ≡ length text.now)
        (λ x. (x.0.now ≡ before_first (λ b. b == mark) text.now) × (x.1.now ≡ after_first (λ b. b == mark) text.now) × (position_or_len (λ b. b == mark) text.now < length text.now)) }
{
    match first_place(text.as_bytes(), mark as u8) {
        Some(i) => Some((&text[..i], &text[i + 1..])),
        None => None,
    }
}

/// What stands after a mark that comes first.
pub fn behind(text: &str, mark: char) -> Option<&str>
    requires { mark < 128 }
    ensures { MatchOption result (begins mark text.now ≡ false) (λ x. text.now ≡ mark ∷ x.now) }
{
    text.strip_prefix(mark)
}
