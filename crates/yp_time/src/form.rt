//! Texts of fixed form: bytes at fixed places, and the numbers that digits spell.
ghost use Rattle.std.specs.Prelude.{◌≡◌, ◌+◌, ◌*◌, ◌<◌, ◌≤◌, length, option_map, IfSome};
ghost use Rattle.std.specs.Bool.{OnTrue};
ghost use Rattle.std.specs.Char.{is_ascii_digit};
ghost use Rattle.std.specs.List.{prefix_len};
ghost use Rattle.yp_time.specs.Forms.{fits_place as fits, after_form as rest_after, has_form as is_whole, digit_at as digit, pair_at as pair, leading_year as year};

fn fits_place(place: u8, byte: u8) -> bool
    ensures { result ≡ fits place byte }
{
    if place == b'd' {
        byte.is_ascii_digit()
    } else {
        place == byte
    }
}

/// What follows a form that a text begins with. In the form `d` stands for a digit.
pub(crate) fn after_form<'a>(form: &[u8], text: &'a [u8]) -> Option<&'a [u8]>
    ensures value { option_map (λ rest. rest.now) result ≡ rest_after form.now text.now }
    ensures long { IfSome result (λ rest. length text.now ≡ length form.now + length rest.now) }
{
    match form.split_first() {
        None => Some(text),
        Some((place, places)) => match text.split_first() {
            None => None,
            Some((byte, bytes)) => {
                if fits_place(*place, *byte) {
                    after_form(places, bytes)
                } else {
                    None
                }
            }
        },
    }
}

/// Whether the whole text has the form.
pub(crate) fn has_form(form: &[u8], text: &[u8]) -> bool
    ensures value { result ≡ is_whole form.now text.now }
    ensures long { OnTrue result (length text.now ≡ length form.now) }
{
    match after_form(form, text) {
        None => false,
        Some(rest) => rest.is_empty(),
    }
}

fn digit_at(text: &[u8], place: usize) -> u16
    requires { place < length text.now }
    ensures value { result ≡ digit text.now place }
    ensures within { result ≤ 207 }
{
    u16::from(text[place].saturating_sub(b'0'))
}

/// The number that two digits spell, the first of them at the place.
pub(crate) fn pair_at(text: &[u8], place: usize) -> u16
    requires { place + 1 < length text.now }
    ensures value { result ≡ pair text.now place }
    ensures within { result ≤ 2277 }
{
    digit_at(text, place) * 10 + digit_at(text, place + 1)
}

/// The number that the first four digits spell.
pub(crate) fn leading_year(text: &[u8]) -> u32
    requires { 4 ≤ length text.now }
    ensures { result ≡ year text.now }
{
    u32::from(pair_at(text, 0)) * 100 + u32::from(pair_at(text, 2))
}

/// How many digits a text begins with.
pub(crate) fn leading_digits(text: &[u8]) -> usize
    ensures value { result ≡ prefix_len is_ascii_digit text.now }
    ensures within { result ≤ length text.now }
{
    for (place, byte) in text.iter().enumerate() {
        if !byte.is_ascii_digit() {
            return place;
        }
    }
    text.len()
}
