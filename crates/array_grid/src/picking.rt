// What words pick of the axes of an array.
ghost use Rattle.std.specs.Prelude.{◌≡◌, ◌≤◌, ◌+◌, IsTrue, ◌↔◌, IfOk, IfErr, OnOk, SomeIff, MatchOption, length, map};
ghost use Rattle.std.specs.List.{All, position_or_len, before_first, after_first};
ghost use Rattle.parts_row_major.specs.Subsets.{subset_of_ranges, LiesIn};
ghost use Rattle.array_grid.specs.Subsets.{place, IsOn, IsCoordinate, picked, LiesOn, is_ellipsis, is_coordinate, kept_of, axes_named, spread, HasOneEllipsis, each_picked, AllLieOn, IsForward, PickRefusal, IsRefusal};

use crate::subsets::SubsetError;
use crate::words::{Position, Word};
use parts_subsets::ArraySubset;
use std::alloc::{AllocError, Global};
use std::ops::Range;

/// A subset that was named by words, and which of its axes were named by one coordinate.
#[derive(Drop)]
pub struct Requested {
    pub subset: ArraySubset,
    pub dropped: Vec<bool>,
}

impl Requested {
    /// How many coordinates the subset has along each axis that is not dropped.
    pub fn kept_shape(&self, alloc: Global) -> Result<Vec<u64>, AllocError>
        ensures { IfOk result (λ kept. kept.items ≡ kept_of self.now.dropped.items self.now.subset.shape) }
    {
        let axes = self.dropped.iter().zip(self.subset.shape());
        axes.filter(|(is_dropped, _)| !**is_dropped)
            .map(|(_, count)| *count)
            .collect(alloc)
    }
}

// The place of a position that stands on an axis.
fn place_on(position: Position, axis: u64) -> Option<u64>
    ensures { SomeIff result (IsOn position axis) (place position axis) }
{
    match position {
        Position::FromStart(count) => { if count <= axis { Some(count) } else { None } }
        Position::FromEnd(count) => axis.checked_sub(count),
    }
}

// The coordinate that a position is.
fn coordinate_on(position: Position, axis: u64) -> Option<u64>
    ensures { SomeIff result (IsCoordinate position axis) (place position axis) }
{
    let at = place_on(position, axis)?;
    if at < axis { Some(at) } else { None }
}

// What a word picks of an axis on which it lies.
fn picked_of(word: Word, axis: u64) -> Option<Range<u64>>
    ensures { SomeIff result (LiesOn word axis) (picked word axis) }
{
    match word {
        Word::Coordinate(position) => {
            let at = coordinate_on(position, axis)?;
            Some(at..at + 1)
        }
        Word::Range { start, end } => Some(place_on(start, axis)?..place_on(end, axis)?),
        Word::RangeInclusive { start, last } => {
            let from = place_on(start, axis)?;
            Some(from..coordinate_on(last, axis)? + 1)
        }
        Word::Ellipsis => Some(0..axis),
    }
}

// What words, one for each axis, pick of the axes on which they lie.
fn each_picked_of(
    alloc: Global,
    words: &[Word],
    shape: &[u64],
) -> Result<Option<Vec<Range<u64>>>, AllocError>
    requires { length words.now ≡ length shape.now }
    ensures { IfOk result (λ made. MatchOption made (¬ AllLieOn words.now shape.now) (λ ranges. AllLieOn words.now shape.now × (ranges.items ≡ each_picked words.now shape.now))) }
{
    let mut ranges: Vec<Range<u64>> = Vec::new(alloc);
    for axis in 0..shape.len() {
        let Some(range) = picked_of(words[axis], shape[axis]) else {
            return Ok(None);
        };
        ranges.push(range)?;
    }
    Ok(Some(ranges))
}

// Whether a word is the ellipsis.
fn is_ellipsis(word: &Word) -> bool
    ensures { result ≡ is_ellipsis word.now }
{
    matches!(word, Word::Ellipsis)
}

// Whether a word names one coordinate.
fn is_coordinate(word: &Word) -> bool
    ensures { result ≡ is_coordinate word.now }
{
    matches!(word, Word::Coordinate(_))
}

// The place of the ellipsis, or behind the last word where there is none.
fn ellipsis_place(words: &[Word]) -> usize
    ensures place { result ≡ position_or_len is_ellipsis words.now }
    ensures within { result ≤ length words.now }
{
    for at in 0..words.len() {
        if is_ellipsis(&words[at]) {
            return at;
        }
    }
    words.len()
}

// The words before the ellipsis, or all of them.
fn before_ellipsis(words: &[Word]) -> &[Word]
    ensures { result.now ≡ before_first is_ellipsis words.now }
{
    &words[..ellipsis_place(words)]
}

// The words after the ellipsis.
fn after_ellipsis(words: &[Word]) -> &[Word]
    ensures { result.now ≡ after_first is_ellipsis words.now }
{
    let at = ellipsis_place(words);
    if at < words.len() {
        &words[at + 1..]
    } else {
        &words[at..]
    }
}

// Words for a number of axes, one for each of them.
fn spread(alloc: Global, words: &[Word], axes: usize) -> Result<Vec<Word>, AllocError>
    requires { axes_named words.now ≤ axes }
    ensures { IfOk result (λ spread_words. spread_words.items ≡ spread words.now axes) }
{
    let (before, after) = (before_ellipsis(words), after_ellipsis(words));
    let whole = Vec::from_elem(alloc, Word::Ellipsis, axes - (before.len() + after.len()))?;
    let mut spread = Vec::from_slice(alloc, before)?;
    spread.extend_from_slice(&whole)?;
    spread.extend_from_slice(after)?;
    Ok(spread)
}

// Which words name one coordinate.
fn dropped_of(alloc: Global, words: &[Word]) -> Result<Vec<bool>, AllocError>
    ensures { IfOk result (λ dropped. dropped.items ≡ map is_coordinate words.now) }
{
    let mut dropped: Vec<bool> = Vec::new(alloc);
    for word in words {
        dropped.push(is_coordinate(word))?;
    }
    Ok(dropped)
}

// Tests that the ellipsis stands once at most.
fn has_one_ellipsis(words: &[Word]) -> bool
    ensures { IsTrue result ↔ HasOneEllipsis words.now }
{
    words.iter().filter(|word| is_ellipsis(word)).count() <= 1
}

// The subset that words, one for each axis, pick of an array of a shape.
fn subset_picked(alloc: Global, words: &[Word], shape: &[u64]) -> Result<ArraySubset, SubsetError>
    requires { length words.now ≡ length shape.now }
    ensures subset { IfOk result (λ subset. subset ≡ subset_of_ranges (each_picked words.now shape.now)) }
    ensures inside { IfOk result (λ subset. LiesIn subset shape.now) }
    ensures on { OnOk result (AllLieOn words.now shape.now) }
    ensures forward { OnOk result (All IsForward (each_picked words.now shape.now)) }
    ensures refused { IfErr result (PickRefusal words.now shape.now) }
{
    let Some(ranges) = each_picked_of(alloc, words, shape)? else {
        return Err(SubsetError::Outside(shape.to_vec(alloc)?));
    };
    match ArraySubset::new_with_ranges(alloc, &ranges)? {
        Some(subset) => Ok(subset),
        None => Err(SubsetError::Backwards(shape.to_vec(alloc)?)),
    }
}

/// The subset that words pick of an array of a shape. The ellipsis stands for as many whole axes as are missing; without it the last
/// axes are whole. Refused, in this order, as `Ellipses` where it stands twice; as `Axes` where more words than axes are named; as
/// `Outside` where a word does not lie on its axis; and as `Backwards` where one starts past its end; or as `OutOfMemory`.
pub fn resolve(alloc: Global, words: &[Word], shape: &[u64]) -> Result<Requested, SubsetError>
    ensures subset { IfOk result (λ requested. requested.subset ≡ subset_of_ranges (each_picked (spread words.now (length shape.now)) shape.now)) }
    ensures dropped { IfOk result (λ requested. requested.dropped.items ≡ map is_coordinate (spread words.now (length shape.now))) }
    ensures inside { IfOk result (λ requested. LiesIn requested.subset shape.now) }
    ensures one { OnOk result (HasOneEllipsis words.now) }
    ensures axes { OnOk result (axes_named words.now ≤ length shape.now) }
    ensures on { OnOk result (AllLieOn (spread words.now (length shape.now)) shape.now) }
    ensures forward { OnOk result (All IsForward (each_picked (spread words.now (length shape.now)) shape.now)) }
    ensures refused { IfErr result (IsRefusal words.now shape.now) }
{
    if !has_one_ellipsis(words) {
        return Err(SubsetError::Ellipses);
    }
    let requested = before_ellipsis(words).len() + after_ellipsis(words).len();
    if requested > shape.len() {
        return Err(SubsetError::Axes {
            requested,
            axes: shape.len(),
        });
    }
    let spread = spread(alloc, words, shape.len())?;
    Ok(Requested {
        subset: subset_picked(alloc, &spread, shape)?,
        dropped: dropped_of(alloc, &spread)?,
    })
}
