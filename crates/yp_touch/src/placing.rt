//! Topmost paths in order, with more of them.
ghost use Rattle.std.specs.Prelude.{◌≡◌, ◌<◌, ◌≤◌, ◌+◌, ◌++◌, ◌∷◌, List, Bool, filter, is_none, length, map, not, take, drop, false, vec_len, IfOk, IfSome};
ghost use Rattle.std.specs.List.{AllByRecursion};
ghost use Rattle.std.specs.List.Sorted.{IsStrictlySortedBy};
ghost use Rattle.std.specs.Vec.{vec_capacity};
ghost use Rattle.std.specs.declared.cmp.Ordering.TheVariants.{Greater};
ghost use Rattle.yp_base.specs.declared.path.Seg.{Seg};
ghost use Rattle.yp_base.specs.Order.{path_cmp, is_within};
ghost use Rattle.yp_base.specs.Paths.{topmost};
ghost use Rattle.yp_touch.specs.Absorbed.{AreTopmost, flagged, paths_of};
ghost use Rattle.yp_touch.specs.Looked.{StandsAt, uncovered, with_path, with_paths};
ghost use Rattle.yp_touch.specs.RootLaws.{has_root};

use crate::root::Root;
use std::alloc::Global;
use yp_base::memory::{Duplicate, NoMemory};
use yp_base::path::{Path, is_prefix};

/// How many of some topmost paths come before a path, and `None` where one of them is at or above it.
pub fn place_of(roots: &[Path], path: &Path) -> Option<usize>
    requires { AreTopmost roots.now }
    ensures covered { is_none result ≡ has_root path.now roots.now }
    ensures place { IfSome result (λ at. StandsAt path.now roots.now at) }
{
    match roots.binary_search(path) {
        Ok(_) => None,
        Err(at) => {
            if 0 < at && is_prefix(&roots[at - 1], path) {
                None
            } else {
                Some(at)
            }
        }
    }
}

/// The roots of these paths and flags that none of some topmost paths is at or above.
pub fn uncovered(
    alloc: Global,
    roots: &[Path],
    paths: &[Path],
    flags: &[bool],
) -> Result<Vec<Root>, NoMemory>
    requires topmost { AreTopmost roots.now }
    requires same { length paths.now ≡ length flags.now }
    ensures { IfOk result (λ found. found.items ≡ uncovered roots.now (flagged paths.now flags.now)) }
{
    let mut found = Vec::new(alloc);
    for root in paths.iter().zip(flags) {
        if place_of(roots, root.0).is_some() {
            found.push(Root {
                path: root.0.copy(alloc)?,
                was: *root.1,
            })?;
        }
    }
    Ok(found)
}

/// How many of some paths in order come before a path, where so many do, or are at or below it.
fn end_below(roots: &[Path], at: usize, path: &Path) -> usize
    requires order { IsStrictlySortedBy path_cmp roots.now }
    requires place { StandsAt path.now roots.now at }
    ensures from { at ≤ result }
    ensures within { result ≤ length roots.now }
    ensures left { filter (λ other. not (is_within path.now other)) (drop at roots.now) ≡ drop result roots.now }
{
    let mut end = at;
    while end < roots.len() && is_prefix(path, &roots[end]) {
        end += 1;
    }
    end
}

/// Puts an item in the place of those of a range. There is room for one more.
fn put_range<T: Drop>(items: &mut Vec<T>, from: usize, to: usize, item: T)
    requires order { from ≤ to }
    requires within { to ≤ vec_len items.old }
    requires room { vec_len items.old < vec_capacity items.old }
    ensures items { items.new.items ≡ take from items.old.items ++ item ∷ drop to items.old.items }
    ensures len { vec_len items.new ≤ vec_len items.old + 1 }
    ensures capacity { vec_capacity items.new ≡ vec_capacity items.old }
{
    items.drain(from..to);
    drop(items.insert(from, item));
}

/// Puts a root among topmost ones, in the place of those below it, unless one of them is at or above it.
fn put_root(paths: &mut Vec<Path>, flags: &mut Vec<bool>, root: Root)
    requires topmost { AreTopmost paths.old.items }
    requires flags { length paths.old.items ≡ length flags.old.items }
    requires room { vec_len paths.old < vec_capacity paths.old }
    requires room_too { vec_len flags.old < vec_capacity flags.old }
    ensures paths { paths.new.items ≡ with_path paths.old.items root.path }
    ensures flags { (was : List Seg → Bool) → flags.old.items ≡ map was paths.old.items → root.was ≡ was root.path → flags.new.items ≡ map was paths.new.items }
    ensures same { length paths.new.items ≡ length flags.new.items }
    ensures len { vec_len paths.new ≤ vec_len paths.old + 1 }
    ensures len_too { vec_len flags.new ≤ vec_len flags.old + 1 }
    ensures capacity { vec_capacity paths.new ≡ vec_capacity paths.old }
    ensures capacity_too { vec_capacity flags.new ≡ vec_capacity flags.old }
{
    let Root { path, was } = root;
    if let Some(at) = place_of(paths.as_slice(), &path) {
        let end = end_below(paths.as_slice(), at, &path);
        put_range(paths, at, end, path);
        put_range(flags, at, end, was);
    }
}

/// Puts roots among topmost ones, one after another. There is room for them.
pub fn put_roots(paths: &mut Vec<Path>, flags: &mut Vec<bool>, roots: Vec<Root>)
    requires topmost { AreTopmost paths.old.items }
    requires flags { length paths.old.items ≡ length flags.old.items }
    requires room { vec_len paths.old + vec_len roots ≤ vec_capacity paths.old }
    requires room_too { vec_len flags.old + vec_len roots ≤ vec_capacity flags.old }
    ensures paths { paths.new.items ≡ with_paths paths.old.items (paths_of roots.items) }
    ensures flags { (was : List Seg → Bool) → flags.old.items ≡ map was paths.old.items → AllByRecursion (λ root. root.was ≡ was root.path) roots.items → flags.new.items ≡ map was paths.new.items }
    ensures same { length paths.new.items ≡ length flags.new.items }
{
    for root in roots {
        put_root(paths, flags, root);
    }
}
