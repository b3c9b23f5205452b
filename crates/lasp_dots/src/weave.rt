//! The pairs of two sets side by side.

ghost use Rattle.std.specs.Prelude.{◌≡◌, ◌++◌, [], IfOk, OnOk, not, filter};
ghost use Rattle.lasp_dots.specs.Prelude.{is_counted, uncounted, weave};

use super::dot::Dot;
use crate::pieces::{Items, Pieces};
use lasp_log::Share;
use std::alloc::{AllocError, Global};
use std::cmp::Ordering;

/// The pairs that both have, and those of one whose updates the other's counts don't count. It costs a comparison for each pair.
pub(crate) fn woven(
    alloc: Global,
    dots: &Pieces<Dot>,
    counts: &[u64],
    others: &Pieces<Dot>,
    other_counts: &[u64],
) -> Result<Pieces<Dot>, AllocError>
    ensures { IfOk result (λ all. all ≡ weave counts.now other_counts.now dots.now others.now) }
{
    let mut all = Pieces::new(alloc);
    let mut left = dots.iter();
    let mut right = others.iter();
    while let Some(dot) = left.first() {
        match right.first() {
            Some(other) => match dot.compare(other) {
                Ordering::Less => {
                    push_uncounted(&mut all, dot, other_counts)?;
                    left.skip();
                }
                Ordering::Equal => {
                    all.push(dot.share()?)?;
                    left.skip();
                    right.skip();
                }
                Ordering::Greater => {
                    push_uncounted(&mut all, other, counts)?;
                    right.skip();
                }
            },
            None => {
                push_uncounted(&mut all, dot, other_counts)?;
                left.skip();
            }
        }
    }
    push_rest(&mut all, right, counts)?;
    Ok(all)
}

/// Appends a pair where these counts don't count its update.
fn push_uncounted(all: &mut Pieces<Dot>, dot: &Dot, counts: &[u64]) -> Result<(), AllocError>
    ensures { OnOk result (all.new ≡ all.old ++ uncounted counts.now dot.now []) }
{
    if !dot.is_counted(counts) {
        all.push(dot.share()?)?;
    }
    Ok(())
}

/// Appends the pairs that are left of which these counts don't count the updates.
fn push_rest(
    all: &mut Pieces<Dot>,
    mut left: Items<'_, Dot>,
    counts: &[u64],
) -> Result<(), AllocError>
    ensures { OnOk result (all.new ≡ all.old ++ filter (λ r. not (is_counted counts.now r.0.1)) left.entry) }
{
    while let Some(dot) = left.next() {
        push_uncounted(all, dot, counts)?;
    }
    Ok(())
}
