//! The names of an enumeration, put into byte order.
ghost use Rattle.std.specs.Prelude.{◌≡◌, IfOk};
ghost use Rattle.yp_base.specs.Types.{are_names, are_rising, are_short};
ghost use Rattle.yp_value.specs.Enumerations.{in_byte_order};
ghost use Rattle.yp_base.specs.Results.{tested};

use std::alloc::Global;
use yp_base::leaf_type::Names;
use yp_base::memory::NoMemory;
use yp_base::series::Series;
use yp_base::txt::Txt;

/// The names of an enumeration in byte order. `None` where there is none, one stands twice, or one has more
/// than 256 bytes.
pub fn enumeration_names(alloc: Global, names: Names) -> Result<Option<Names>, NoMemory>
    ensures { IfOk result (λ kept. kept ≡ tested are_names (in_byte_order names)) }
{
    let sorted = sort_names(alloc, names)?;
    if sorted.is_empty() {
        return Ok(None);
    }
    if are_rising(sorted.as_slice()) && are_short(sorted.as_slice()) {
        Ok(Some(Series::from_vec(sorted)))
    } else {
        Ok(None)
    }
}

/// The names in byte order.
fn sort_names(alloc: Global, names: Names) -> Result<Vec<Txt>, NoMemory>
    ensures { IfOk result (λ sorted. sorted.items ≡ in_byte_order names) }
{
    let mut sorted = names.into_vec(alloc)?;
    sorted.sort()?;
    Ok(sorted)
}

/// Whether each text comes before the next in byte order.
fn are_rising(texts: &[Txt]) -> bool
    ensures { result ≡ are_rising texts.now }
{
    texts.is_sorted_by(|text, next| text.cmp(next).is_lt())
}

fn are_short(texts: &[Txt]) -> bool
    ensures { result ≡ are_short texts.now }
{
    for text in texts {
        if text.as_str().len() > 256 {
            return false;
        }
    }
    true
}
