ghost use Rattle.std.specs.Prelude.{◌≡◌, ◌≤◌, ◌&&◌, nat_lt, not, length, ◌++◌, map, slice_index_or, IfOk, OnOk};
ghost use Rattle.std.specs.List.{list_any, prefix_len};
ghost use Rattle.iocm_types.specs.declared.css_path.CssPath.{CssPath};
ghost use Rattle.iocm_offon.specs.Reached as meaning;

use crate::reason::{Reach, Reason};
use iocm_impact::NamedImage;
use iocm_plan::DeviceRun;
use iocm_types::{CssPath, Text};
use iocm_values::printed;
use iocm_words::{Member, group_words, groups_of, put_joined};
use std::alloc::{AllocError, Global};

/// Whether some reason leads each path of a device another way.
pub fn is_each(reasons: &[Reason]) -> bool
    ensures { result ≡ meaning.is_each reasons.now }
{
    reasons.iter().any(|reason| is_of_each(reason.reach))
}

fn is_of_each(reach: Reach) -> bool
    ensures { result ≡ meaning.is_of_each reach }
{
    match reach {
        Reach::EachPath => true,
        _ => false,
    }
}

/// Whether some path leads over another control unit.
pub fn is_over(reasons: &[Reason]) -> bool
    ensures { result ≡ meaning.is_over reasons.now }
{
    reasons.iter().any(|reason| is_of_another(reason.reach))
}

fn is_of_another(reach: Reach) -> bool
    ensures { result ≡ meaning.is_of_another reach }
{
    match reach {
        Reach::OverAnother => true,
        _ => false,
    }
}

/// The paths of reasons, in order, each once. The time is that of looking for each among them.
///
/// `AllocError` (M1): memory ran out.
pub fn paths_in(alloc: Global, reasons: &[Reason]) -> Result<Vec<CssPath>, AllocError>
    ensures { IfOk result (λ paths. paths.items ≡ meaning.paths_in reasons.now) }
{
    let mut paths = Vec::new(alloc);
    for reason in reasons {
        put_path(&mut paths, reason.spot.path)?;
    }
    Ok(paths)
}

/// Puts a path in its place among others that are in order, if it isn't there.
fn put_path(paths: &mut Vec<CssPath>, path: CssPath) -> Result<(), AllocError>
    ensures { OnOk result (paths.new.items ≡ meaning.with_path paths.old.items path) }
{
    let place = place_of(paths.as_slice(), &path);
    if is_at(paths.as_slice(), place, &path) {
        return Ok(());
    }
    paths.insert(place, path)?;
    Ok(())
}

/// The place of a path among others: that of the first that isn't before it, or behind all of them.
fn place_of(paths: &[CssPath], path: &CssPath) -> usize
    ensures place { result ≡ prefix_len (λ q. meaning.is_before q path.now) paths.now }
    ensures within { result ≤ length paths.now }
{
    paths
        .iter()
        .take_while(|other| is_before(other, path))
        .count()
}

/// Whether the path at a place is this one, where none is behind it.
fn is_at(paths: &[CssPath], place: usize, path: &CssPath) -> bool
    ensures { (d : CssPath) → result
        ≡ (nat_lt place (length paths.now) && not (meaning.is_before path.now (slice_index_or paths.now place d))) }
{
    place < paths.len() && !is_before(path, &paths[place])
}

fn is_before(path: &CssPath, other: &CssPath) -> bool
    ensures { result ≡ meaning.is_before path.now other.now }
{
    path.css.number() < other.css.number()
        || path.css == other.css && path.path.number() < other.path.number()
}

/// The paths of reasons as they are told: `path 0.43`, `paths 0,1.43 0.44`, or `each path`.
///
/// `AllocError` (M1): memory ran out.
pub fn paths_text(alloc: Global, reasons: &[Reason]) -> Result<Text, AllocError>
    ensures { IfOk result (λ text. text ≡ meaning.paths_text reasons.now) }
{
    if is_each(reasons) {
        return Text::from_slice(alloc, b"each path");
    }
    let paths = paths_in(alloc, reasons)?;
    paths_word(alloc, &paths)
}

fn paths_word(alloc: Global, paths: &[CssPath]) -> Result<Text, AllocError>
    ensures { IfOk result (λ text. text ≡ meaning.paths_word paths.now) }
{
    let mut text = Vec::new(alloc);
    if paths.len() == 1 {
        text.extend_from_slice(b"path ")?;
    } else {
        text.extend_from_slice(b"paths ")?;
    }
    let members = members_of(alloc, paths)?;
    put_numbers(&mut text, alloc, &members)?;
    Ok(Text::from_vec(text))
}

fn members_of(alloc: Global, paths: &[CssPath]) -> Result<Vec<Member>, AllocError>
    ensures { IfOk result (λ members. members.items ≡ map meaning.member paths.now) }
{
    let mut members = Vec::new(alloc);
    for path in paths {
        members.push(member(alloc, path)?)?;
    }
    Ok(members)
}

/// A path, told with those of the same number in other channel subsystems.
fn member(alloc: Global, path: &CssPath) -> Result<Member, AllocError>
    ensures { IfOk result (λ member. member ≡ meaning.member path.now) }
{
    let number = path.path;
    let word = printed(alloc, &path.css)?;
    let group = format!(in alloc; ".{number}")?;
    Ok(Member {
        word,
        group: Text::from_vec(group.into_bytes()),
    })
}

fn put_numbers(text: &mut Vec<u8>, alloc: Global, members: &[Member]) -> Result<(), AllocError>
    ensures { OnOk result (text.new.items ≡ text.old.items ++ meaning.numbers_word members.now) }
{
    let groups = groups_of(alloc, members)?;
    let words = number_words(alloc, members, &groups)?;
    put_joined(text, &words, b' ')
}

fn number_words(alloc: Global, members: &[Member], groups: &[Text]) -> Result<Vec<Text>, AllocError>
    ensures { IfOk result (λ words. words.items ≡ map (meaning.number_word members.now) groups.now) }
{
    let mut words = Vec::new(alloc);
    for group in groups {
        words.push(number_word(alloc, members, group)?)?;
    }
    Ok(words)
}

fn number_word(alloc: Global, members: &[Member], group: &Text) -> Result<Text, AllocError>
    ensures { IfOk result (λ word. word ≡ meaning.number_word members.now group.now) }
{
    let words = group_words(alloc, members, group)?;
    let mut text = Vec::from_slice(alloc, words.as_slice())?;
    text.extend_from_slice(group.as_slice())?;
    Ok(Text::from_vec(text))
}

/// The images of which these reasons are, in the order of keys.
///
/// `AllocError` (M1): memory ran out.
pub fn images_in(
    alloc: Global,
    images: &[NamedImage],
    reasons: &[Reason],
) -> Result<Vec<NamedImage>, AllocError>
    ensures { IfOk result (λ own. own.items ≡ meaning.images_in images.now reasons.now) }
{
    images
        .iter()
        .filter(|image| has_image(reasons, image))
        .map(|image| image.copied())
        .collect(alloc)
}

fn has_image(reasons: &[Reason], image: &NamedImage) -> bool
    ensures { result ≡ list_any (meaning.is_for image.now) reasons.now }
{
    reasons.iter().any(|reason| is_for(image, reason))
}

fn is_for(image: &NamedImage, reason: &Reason) -> bool
    ensures { result ≡ meaning.is_for image.now reason.now }
{
    let (place, other) = (reason.spot.image.image, image.image);
    place.css == other.css && place.mif == other.mif
}

/// Whether some reason is of a run of devices.
pub fn has_run(reasons: &[Reason], run: &DeviceRun) -> bool
    ensures { result ≡ list_any (meaning.is_of_run run.now) reasons.now }
{
    reasons.iter().any(|reason| is_of_run(run, reason))
}

fn is_of_run(run: &DeviceRun, reason: &Reason) -> bool
    ensures { result ≡ meaning.is_of_run run.now reason.now }
{
    let first = reason.spot.run.first;
    first.set == run.first.set && first.number == run.first.number
}
