ghost use Rattle.std.specs.Prelude.{◌≡◌, length, filter};
ghost use Rattle.std.specs.List.Sorted.{IsStrictlySortedBy};
ghost use Rattle.iocm_types.specs.Place.{cell_cmp};
ghost use Rattle.iocm_seats.specs.Sights.{cells_of_sights, is_in, is_before, sights_in};

use iocm_reach::ReachedCell;
use iocm_types::Css;
use std::alloc::Allocator;

/// A channel subsystem, and its number cells among some that are in order.
#[derive(Drop)]
pub(crate) struct OwnSights<'s, 'a, A: Allocator, B: Allocator> {
    css: Css,
    sights: &'s [ReachedCell<'a, A, B>],
}

impl<'s, 'a, A: Allocator, B: Allocator> OwnSights<'s, 'a, A, B> {
    /// Those of a channel subsystem.
    pub(crate) fn find(css: Css, sights: &'s [ReachedCell<'a, A, B>]) -> Self
        requires { IsStrictlySortedBy cell_cmp (cells_of_sights sights.now) }
        ensures css { result.css ≡ css }
        ensures sights { result.sights.now ≡ sights_in css sights.now }
    {
        OwnSights {
            css,
            sights: find_sights(css, sights),
        }
    }

    /// Those of a channel subsystem among the same number cells. Where it is the same channel
    /// subsystem, nothing is looked for.
    pub(crate) fn follow(&self, css: Css, sights: &'s [ReachedCell<'a, A, B>]) -> Self
        requires order { IsStrictlySortedBy cell_cmp (cells_of_sights sights.now) }
        requires own { self.now.sights.now ≡ sights_in self.now.css sights.now }
        ensures css { result.css ≡ css }
        ensures sights { result.sights.now ≡ sights_in css sights.now }
    {
        if self.css == css {
            return OwnSights {
                css,
                sights: self.sights,
            };
        }
        OwnSights::find(css, sights)
    }

    /// The number cells.
    pub(crate) fn as_slice(&self) -> &'s [ReachedCell<'a, A, B>]
        ensures { result.now ≡ self.now.sights.now }
    {
        self.sights
    }
}

/// The number cells of a channel subsystem, among some in order. They are side by side, after those
/// of the channel subsystems before it.
fn find_sights<'s, 'a, A: Allocator, B: Allocator>(
    css: Css,
    sights: &'s [ReachedCell<'a, A, B>],
) -> &'s [ReachedCell<'a, A, B>]
    requires { IsStrictlySortedBy cell_cmp (cells_of_sights sights.now) }
    ensures { result.now ≡ sights_in css sights.now }
{
    let before = count_before(css, sights);
    let own = count_in(css, sights);
    &sights[before..before + own]
}

/// How many number cells are of channel subsystems before this one.
fn count_before<A: Allocator, B: Allocator>(css: Css, sights: &[ReachedCell<'_, A, B>]) -> usize
    ensures { result ≡ length (filter (is_before css) sights.now) }
{
    sights.iter().filter(|sight| is_before(css, sight)).count()
}

/// Whether a number cell is of a channel subsystem before this one.
fn is_before<A: Allocator, B: Allocator>(css: Css, sight: &ReachedCell<'_, A, B>) -> bool
    ensures { result ≡ is_before css sight.now }
{
    sight.cell().css.number() < css.number()
}

/// How many number cells are of this channel subsystem.
fn count_in<A: Allocator, B: Allocator>(css: Css, sights: &[ReachedCell<'_, A, B>]) -> usize
    ensures { result ≡ length (sights_in css sights.now) }
{
    sights.iter().filter(|sight| is_in(css, sight)).count()
}

/// Whether a number cell is of this channel subsystem.
fn is_in<A: Allocator, B: Allocator>(css: Css, sight: &ReachedCell<'_, A, B>) -> bool
    ensures { result ≡ is_in css sight.now }
{
    sight.cell().css == css
}
