ghost use Rattle.std.specs.Prelude.{◌≡◌, ◌==◌, filter, length, nat_eq};
ghost use Rattle.std.specs.List.{list_any};
ghost use Rattle.iocm_types.specs.declared.css_path.CssPath as css_path;
ghost use Rattle.iocm_model.specs.Machine.PathList.{paths_in};
ghost use Rattle.iocm_model.specs.Rules.EachRule as model;

use iocm_types::{Chpid, Css, CssPath};

/// How many of these paths are in a channel subsystem.
pub fn count_in(css: Css, paths: &[CssPath]) -> usize
    ensures { result ≡ length (paths_in css paths.now) }
{
    count_of_css(css, paths)
}

// How many of these paths are of a channel subsystem.
fn count_of_css(css: Css, paths: &[CssPath]) -> usize
    ensures { result ≡ length (filter (λ (p : css_path.CssPath). p.css == css) paths.now) }
{
    paths.iter().filter(|path| path.css == css).count()
}

/// Whether a path of a channel subsystem is among these.
#[tactic(auto, using(iocm_types::proofs::Any::any_steps, crate::proofs::PathNumbers::path_among))]
pub fn has_path(css: Css, number: Chpid, paths: &[CssPath]) -> bool
    ensures { result ≡ list_any (nat_eq number) (paths_in css paths.now) }
{
    for path in paths {
        if path.css == css && number == path.path {
            return true;
        }
    }
    false
}

/// Whether a path of a channel subsystem stands twice among these.
#[tactic(auto, using(crate::proofs::PathNumbers::path_twice))]
pub fn has_path_twice(css: Css, paths: &[CssPath]) -> bool
    ensures { result ≡ model.has_twice (paths_in css paths.now) }
{
    for i in 0..paths.len() {
        let path = paths[i];
        if path.css == css && has_path(css, path.path, &paths[i + 1..]) {
            return true;
        }
    }
    false
}
