//! The rows that differ between two lists in order.
ghost use Rattle.std.specs.Prelude.{◌≡◌, ◌+◌, ◌<◌, ◌++◌, [], length, option_copied, IfOk, IfSome, IfNone};
ghost use Rattle.yp_base.specs.Rows.{AreInOrder};
ghost use Rattle.yp_changes.specs.Changes.{changed_rows};
ghost use Rattle.yp_changes.specs.Differing.{SplitsOff};

use crate::changed::{Changed, change_of};
use std::alloc::Global;
use std::cmp::Ordering;
use yp_base::memory::{Duplicate, NoMemory};
use yp_base::path::Path;
use yp_base::row::{Row, Value};
use yp_base::series::Series;

/// The first path of two lists with its value in each, and the rows past it.
#[derive(Drop)]
struct Split<'a> {
    path: &'a Path,
    old: Option<&'a Value>,
    new: Option<&'a Value>,
    olds: &'a [Row],
    news: &'a [Row],
}

/// The first path of two lists, and `None` where both have no rows.
fn first<'a>(olds: &'a [Row], news: &'a [Row]) -> Option<Split<'a>>
    requires olds { AreInOrder olds.now }
    requires news { AreInOrder news.now }
    ensures none { IfNone result (changed_rows olds.entry.now news.entry.now ≡ []) }
    ensures first { IfSome result (λ first. SplitsOff olds.entry.now news.entry.now first.path.now (option_copied first.old) (option_copied first.new) first.olds.now first.news.now) }
{
    match (olds.split_first(), news.split_first()) {
        (Some((old, olds_left)), Some((new, news_left))) => {
            Some(match old.path.cmp(&new.path) {
                Ordering::Less => Split {
                    path: &old.path,
                    old: Some(&old.value),
                    new: None,
                    olds: olds_left,
                    news,
                },
                Ordering::Equal => Split {
                    path: &old.path,
                    old: Some(&old.value),
                    new: Some(&new.value),
                    olds: olds_left,
                    news: news_left,
                },
                Ordering::Greater => Split {
                    path: &new.path,
                    old: None,
                    new: Some(&new.value),
                    olds,
                    news: news_left,
                },
            })
        }
        (Some((old, olds_left)), None) => Some(Split {
            path: &old.path,
            old: Some(&old.value),
            new: None,
            olds: olds_left,
            news,
        }),
        (None, Some((new, news_left))) => Some(Split {
            path: &new.path,
            old: None,
            new: Some(&new.value),
            olds,
            news: news_left,
        }),
        (None, None) => None,
    }
}

/// The rows that differ between two lists in order. Each row is compared with one or two others.
pub fn differing(alloc: Global, olds: &[Row], news: &[Row]) -> Result<Changed, NoMemory>
    requires olds { AreInOrder olds.now }
    requires news { AreInOrder news.now }
    ensures { IfOk result (λ changed. changed ≡ changed_rows olds.now news.now) }
{
    let mut changed = Vec::new(alloc);
    let mut rest = (olds, news);
    while let Some(next) = first(rest.0, rest.1) {
        if let Some(change) = change_of(alloc, next.path.copy(alloc)?, next.old, next.new)? {
            changed.push(change)?;
        }
        rest = (next.olds, next.news);
    }
    Ok(Series::from_vec(changed))
}
