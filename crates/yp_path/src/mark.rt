//! Texts of rule paths cut at marks that stand in no value.
ghost use Rattle.std.specs.Prelude.{◌≡◌, ◌<◌, ◌+◌, ◌==◌, ◌&&◌, [], ◌∷◌, length, take, drop, slice_index, MatchOption};
ghost use Rattle.yp_path.specs.RulePaths.{next_place, is_unquoted, is_quote, pieces};
ghost use Rattle.yp_path.specs.declared.mark.Place.TheVariants.{Outside};

/// Where a byte of a rule path's text stands.
#[derive(Clone, Copy)]
pub enum Place {
    /// Before, between or after brackets.
    Outside,
    /// Within brackets, in no value.
    Within,
    /// In a value, which goes up to this quote.
    Quoted(u8),
}

fn is_quote(byte: u8) -> bool
    ensures { result ≡ is_quote byte }
{
    matches!(byte, b'\'' | b'"')
}

fn next_place(place: Place, byte: u8) -> Place
    ensures { result ≡ next_place place byte }
{
    match place {
        Place::Outside => {
            if byte == b'[' {
                Place::Within
            } else {
                Place::Outside
            }
        }
        Place::Within => {
            if byte == b']' {
                Place::Outside
            } else if is_quote(byte) {
                Place::Quoted(byte)
            } else {
                Place::Within
            }
        }
        Place::Quoted(quote) => {
            if byte == quote {
                Place::Within
            } else {
                Place::Quoted(quote)
            }
        }
    }
}

fn is_unquoted(place: Place) -> bool
    ensures { result ≡ is_unquoted place }
{
    match place {
        Place::Outside | Place::Within => true,
        Place::Quoted(_) => false,
    }
}

/// Whether a byte is a mark at which a text is cut.
fn is_cut(byte: u8, mark: u8, place: Place) -> bool
    ensures { result ≡ (byte == mark && is_unquoted place) }
{
    byte == mark && is_unquoted(place)
}

/// Where the first mark stands that is in no value.
#[tactic(auto, using(crate::proofs::Pieces::go_on, crate::proofs::Pieces::cut_here, crate::proofs::Pieces::no_cut))]
fn first_mark(text: &[u8], mark: u8, start: Place) -> Option<usize>
    ensures { MatchOption result (pieces mark start text.now ≡ text.now ∷ [])
        (λ i. (i < length text.now) × (slice_index text.now i ≡ mark) × (pieces mark start text.now ≡ take i text.now ∷ pieces mark Outside (drop (i + 1) text.now))) }
{
    let mut place = start;
    for (i, byte) in text.iter().enumerate() {
        if is_cut(*byte, mark, place) {
            return Some(i);
        }
        place = next_place(place, *byte);
    }
    None
}

/// What stands before the first mark that is in no value, and what stands after it.
pub fn cut_bare(text: &str, mark: u8, start: Place) -> Option<(&str, &str)>
    requires { mark < 128 }
    ensures { MatchOption result (pieces mark start text.now ≡ text.now ∷ [])
        (λ x. (pieces mark start text.now ≡ x.0.now ∷ pieces mark Outside x.1.now) × (length x.1.now < length text.now)) }
{
    match first_mark(text.as_bytes(), mark, start) {
        Some(i) => Some((&text[..i], &text[i + 1..])),
        None => None,
    }
}
