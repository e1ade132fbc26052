ghost use Rattle.std.specs.Prelude.{◌≡◌, ◌++◌, OnOk};
ghost use Rattle.serde_json.specs.Written.{compact_text};
ghost use Rattle.iocm_record.specs.Meaning.{unit_of};
ghost use Rattle.iocm_sight.specs.Linked.{linked_paths};
ghost use Rattle.iocm_record_lines.specs.Lists.{list_of};
ghost use Rattle.iocm_record_lines.specs.Records as meaning;

use crate::put::{Hex2, Hex4, put, put_comma};
use iocm_record::UnitFields;
use iocm_sight::linked_paths;
use iocm_types::Link;
use iocm_words::LinkedPath;
use std::alloc::{AllocError, Allocator, Global};
use std::fmt;

/// Puts the paths of a control unit with their links, by channel subsystem.
pub(crate) fn put_unit_paths<A: Allocator>(
    alloc: Global,
    text: &mut Vec<u8>,
    unit: &UnitFields<A>,
) -> Result<(), AllocError>
    ensures { OnOk result (text.new.items ≡ text.old.items
        ++ compact_text (list_of meaning.unit_path_value (linked_paths (unit_of unit.now)))) }
{
    let paths = linked_paths(alloc, unit)?;
    put_paths(alloc, text, paths.as_slice())
}

/// Puts a list of paths with their links. Answers the lack of memory alone.
pub fn put_paths(alloc: Global, text: &mut Vec<u8>, paths: &[LinkedPath]) -> Result<(), AllocError>
    ensures { OnOk result (text.new.items ≡ text.old.items ++ compact_text (list_of meaning.unit_path_value paths.now)) }
{
    text.push(b'[')?;
    let mut later = false;
    for path in paths {
        put_comma(text, later)?;
        put(alloc, PathObject(*path), text)?;
        later = true;
    }
    text.push(b']')?;
    Ok(())
}

/// A channel path of a control unit with its link, as it is printed.
#[derive(Clone, Copy)]
pub struct PathObject(pub LinkedPath);

impl fmt::Display for PathObject {
    ghost use Rattle.std.specs.Prelude.{Some};

    ghost output = { λ p. Some (compact_text (meaning.unit_path_value p.0)) };

    fn fmt<W: fmt::Write>(&self, f: &mut fmt::Formatter<W>) -> fmt::Result {
        let css = self.0.css.number();
        let link = LinkMember(self.0.link);
        let path = self.0.path;
        write!(f, "{{\"css\":{css},{link}\"path\":\"{path}\"}}")
    }
}

/// The link of a path, if it has one, with a comma.
#[derive(Clone, Copy)]
struct LinkMember(Option<Link>);

impl fmt::Display for LinkMember {
    ghost use Rattle.std.specs.Prelude.{Some, codes};
    ghost use Rattle.std.specs.Option.{option_map};
    ghost use Rattle.iocm_lines.specs.Lines.{with_comma_if_there};

    ghost output = { λ l. Some (with_comma_if_there (codes "link") (option_map meaning.link_value l.0)) };

    fn fmt<W: fmt::Write>(&self, f: &mut fmt::Formatter<W>) -> fmt::Result {
        match self.0 {
            Some(link) => {
                let link = LinkText(link);
                write!(f, "\"link\":{link},")
            }
            None => Ok(()),
        }
    }
}

/// A link, or null if it is written as two asterisks.
#[derive(Clone, Copy)]
struct LinkText(Link);

impl fmt::Display for LinkText {
    ghost use Rattle.std.specs.Prelude.{Some};

    ghost output = { λ l. Some (compact_text (meaning.link_value l.0)) };

    fn fmt<W: fmt::Write>(&self, f: &mut fmt::Formatter<W>) -> fmt::Result {
        match self.0 {
            Link::None => f.write_str("null"),
            Link::Short(number) => {
                let number = Hex2(number);
                write!(f, "\"{number}\"")
            }
            Link::Long(number) => {
                let number = Hex4(number);
                write!(f, "\"{number}\"")
            }
        }
    }
}
