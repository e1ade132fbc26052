ghost use Rattle.std.specs.Prelude.{◌≡◌, ◌++◌, IfOk, OnOk};
ghost use Rattle.std.specs.List.{flat_map};
ghost use Rattle.serde_json.specs.Written.{compact_text};
ghost use Rattle.iocm_record_lines.specs.Lists.{list_of};
ghost use Rattle.iocm_list_lines.specs.Images as meaning;

use crate::members::{put_member, put_word};
use crate::texts::ImageText;
use iocm_config::Config;
use iocm_filter::Filters;
use iocm_list::{ImageRow, image_rows};
use iocm_record_lines::{put_comma, put_shown};
use iocm_words::SetNumbers;
use std::alloc::{AllocError, Global};
use std::fmt;

/// A line for each of the images that filters leave, in the order of keys.
///
/// `AllocError` (M1): memory ran out.
pub fn image_lines(alloc: Global, filters: &Filters, config: &Config) -> Result<Vec<u8>, AllocError>
    ensures { IfOk result (λ text. text.items ≡ meaning.image_lines filters.now config.now.records) }
{
    let rows = image_rows(alloc, filters, config)?;
    lines_of(alloc, rows.as_slice())
}

fn lines_of(alloc: Global, rows: &[ImageRow]) -> Result<Vec<u8>, AllocError>
    ensures { IfOk result (λ text. text.items ≡ flat_map meaning.image_line rows.now) }
{
    let mut text = Vec::new(alloc);
    for row in rows {
        put_line(alloc, &mut text, row)?;
    }
    Ok(text)
}

/// Puts the line of a row.
fn put_line(alloc: Global, text: &mut Vec<u8>, row: &ImageRow) -> Result<(), AllocError>
    ensures { OnOk result (text.new.items ≡ text.old.items ++ meaning.image_line row.now) }
{
    put_row(alloc, text, row)?;
    text.push(b'\n')?;
    Ok(())
}

/// Puts the object of a row.
fn put_row(alloc: Global, text: &mut Vec<u8>, row: &ImageRow) -> Result<(), AllocError>
    ensures { OnOk result (text.new.items ≡ text.old.items ++ compact_text (meaning.image_value row.now)) }
{
    put_member(alloc, text, b"{\"devices\":", row.devices)?;
    put_member(alloc, text, b",\"image\":", ImageText(row.image))?;
    put_word(text, b",\"name\":", row.name.as_bytes())?;
    put_member(alloc, text, b",\"nopath\":", row.no_path)?;
    text.extend_from_slice(b",\"numbers\":")?;
    put_sets(alloc, text, row.numbers.as_slice())?;
    put_member(alloc, text, b",\"onepath\":", row.one_path)?;
    put_member(alloc, text, b",\"online\":", row.online)?;
    put_member(alloc, text, b",\"paths\":", row.paths)?;
    text.extend_from_slice(b",\"type\":\"image\"}")?;
    Ok(())
}

/// Puts a list of what sets have taken of their subchannel numbers.
fn put_sets(alloc: Global, text: &mut Vec<u8>, sets: &[SetNumbers]) -> Result<(), AllocError>
    ensures { OnOk result (text.new.items ≡ text.old.items ++ compact_text (list_of meaning.set_value sets.now)) }
{
    text.push(b'[')?;
    let mut later = false;
    for numbers in sets {
        put_comma(text, later)?;
        put_shown(alloc, SetObject(*numbers), text)?;
        later = true;
    }
    text.push(b']')?;
    Ok(())
}

/// What a set has taken of its subchannel numbers.
#[derive(Clone, Copy)]
struct SetObject(SetNumbers);

impl fmt::Display for SetObject {
    ghost use Rattle.std.specs.Prelude.{Some};

    ghost output = { λ s. Some (compact_text (meaning.set_value s.0)) };

    #[tactic(auto, unfolding(json::specs::Print::escape_byte))]
    fn fmt<W: fmt::Write>(&self, f: &mut fmt::Formatter<W>) -> fmt::Result {
        let limit = self.0.limit;
        let set = self.0.set.number();
        let used = self.0.used;
        write!(f, "{{\"limit\":{limit},\"set\":{set},\"used\":{used}}}")
    }
}
