ghost use Rattle.std.specs.Prelude.{◌≡◌, ◌++◌, ◌∷◌, [], OnOk};
ghost use Rattle.serde_json.specs.Written.{compact_text};
ghost use Rattle.iocm_record.specs.Meaning.{path_of};
ghost use Rattle.iocm_record_lines.specs.Records as meaning;

use crate::device::put_device;
use crate::names::put_names;
use crate::operands::put_operands;
use crate::put::put;
use crate::quoting::put_quoted;
use crate::unit::put_unit;
use iocm_lines::ImageName;
use iocm_record::{Carried, PathFields, Record, RecordBody};
use iocm_types::{Chpid, Css, Image, Mif, Name, PathKind, SetNo};
use std::alloc::{AllocError, Allocator, Global};
use std::fmt;

/// Puts a record.
#[tactic(auto, unfolding(json::specs::Print::escape_byte))]
pub(crate) fn put_record<A: Allocator>(
    alloc: Global,
    text: &mut Vec<u8>,
    entry: &Record<A>,
) -> Result<(), AllocError>
    ensures { OnOk result (text.new.items ≡ text.old.items ++ compact_text (meaning.record_value entry.now)) }
{
    match entry.body() {
        RecordBody::Id(carried) => put_statement(text, b"{\"kind\":\"id\",\"operands\":", carried),
        RecordBody::Resource(carried) => put_statement(
            text,
            b"{\"kind\":\"resource\",\"operands\":",
            carried,
        ),
        RecordBody::Image(css, mif, name) => put_image(alloc, text, *css, *mif, name),
        RecordBody::Limit(css, set, limit) => put(alloc, LimitObject(*css, *set, *limit), text),
        RecordBody::Path(path) => put_path(alloc, text, path),
        RecordBody::Unit(unit) => put_unit(alloc, text, unit),
        RecordBody::Device(device) => put_device(alloc, text, device),
        RecordBody::Online(css, path, name) => put_online(alloc, text, *css, *path, name),
    }
}

/// Puts what a statement carries along, behind the beginning of its record.
fn put_statement<A: Allocator>(
    text: &mut Vec<u8>,
    begun: &[u8],
    carried: &[Carried<A>],
) -> Result<(), AllocError>
    ensures { OnOk result (text.new.items ≡ text.old.items
        ++ (begun.now ++ (compact_text (meaning.operands_value carried.now) ++ 125 ∷ []))) }
{
    text.extend_from_slice(begun)?;
    put_operands(text, carried)?;
    text.push(b'}')?;
    Ok(())
}

/// Puts the record of an image.
fn put_image(
    alloc: Global,
    text: &mut Vec<u8>,
    css: Css,
    mif: Mif,
    name: &Name,
) -> Result<(), AllocError>
    ensures { OnOk result (text.new.items ≡ text.old.items
        ++ compact_text (meaning.image_value (record { css = css; mif = mif; name = name.now }))) }
{
    put(alloc, UntilName(Image { css, mif }), text)?;
    put_quoted(text, name.as_bytes())?;
    text.push(b'}')?;
    Ok(())
}

/// The part of an image up to its name.
#[derive(Clone, Copy)]
struct UntilName(Image);

impl fmt::Display for UntilName {
    ghost use Rattle.std.specs.Prelude.{Some, codes};
    ghost use Rattle.std.specs.Fmt.{decimal};
    ghost use Rattle.iocm_lines.specs.Members.{image_name};

    ghost output = { λ i. Some (codes "{\"css\":" ++ (decimal i.0.css ++ (codes ",\"image\":\""
        ++ (image_name i.0 ++ codes "\",\"kind\":\"image\",\"name\":")))) };

    fn fmt<W: fmt::Write>(&self, f: &mut fmt::Formatter<W>) -> fmt::Result {
        let css = self.0.css.number();
        let image = ImageName(self.0);
        write!(
            f,
            "{{\"css\":{css},\"image\":\"{image}\",\"kind\":\"image\",\"name\":"
        )
    }
}

/// The limit of subchannels of a set.
#[derive(Clone, Copy)]
struct LimitObject(Css, SetNo, u16);

impl fmt::Display for LimitObject {
    ghost use Rattle.std.specs.Prelude.{Some};

    ghost output = { λ l. Some
        (compact_text (meaning.limit_value (record { css = l.0; set = l.1; limit = l.2 }))) };

    #[tactic(auto, unfolding(json::specs::Print::escape_byte))]
    fn fmt<W: fmt::Write>(&self, f: &mut fmt::Formatter<W>) -> fmt::Result {
        let css = self.0.number();
        let set = self.1.number();
        let limit = self.2;
        write!(
            f,
            "{{\"css\":{css},\"kind\":\"limit\",\"limit\":{limit},\"set\":{set}}}"
        )
    }
}

/// Puts the record of a channel path.
fn put_path<A: Allocator>(
    alloc: Global,
    text: &mut Vec<u8>,
    path: &PathFields<A>,
) -> Result<(), AllocError>
    ensures { OnOk result (text.new.items ≡ text.old.items
        ++ compact_text (meaning.path_value (path_of path.now))) }
{
    text.extend_from_slice(b"{\"access\":")?;
    put_names(text, path.access.as_slice())?;
    text.extend_from_slice(b",\"candidates\":")?;
    put_names(text, path.candidates.as_slice())?;
    put(alloc, UntilOperands(path.css), text)?;
    put_operands(text, path.carried.as_slice())?;
    put(alloc, PathEnd(path.number, path.kind), text)?;
    Ok(())
}

/// The part of a channel path from its candidates to its operands.
#[derive(Clone, Copy)]
struct UntilOperands(Css);

impl fmt::Display for UntilOperands {
    ghost use Rattle.std.specs.Prelude.{Some, codes};
    ghost use Rattle.std.specs.Fmt.{decimal};

    ghost output = { λ p. Some (codes ",\"css\":" ++ (decimal p.0 ++ codes ",\"kind\":\"path\",\"operands\":")) };

    fn fmt<W: fmt::Write>(&self, f: &mut fmt::Formatter<W>) -> fmt::Result {
        let css = self.0.number();
        write!(f, ",\"css\":{css},\"kind\":\"path\",\"operands\":")
    }
}

/// The part of a channel path from its operands to the end.
#[derive(Clone, Copy)]
struct PathEnd(Chpid, PathKind);

impl fmt::Display for PathEnd {
    ghost use Rattle.std.specs.Prelude.{Some, codes};
    ghost use Rattle.iocm_types.specs.Print.{hex2};

    ghost output = { λ p. Some (codes ",\"path\":\"" ++ (hex2 p.0 ++ (codes "\",\"use\":\""
        ++ (meaning.use_text p.1 ++ codes "\"}")))) };

    fn fmt<W: fmt::Write>(&self, f: &mut fmt::Formatter<W>) -> fmt::Result {
        let path = self.0;
        let kind = use_text(self.1);
        write!(f, ",\"path\":\"{path}\",\"use\":\"{kind}\"}}")
    }
}

/// How images use a channel path.
pub fn use_text(kind: PathKind) -> &'static str
    ensures { result.now ≡ meaning.use_text kind }
{
    match kind {
        PathKind::Dedicated => "dedicated",
        PathKind::Shared => "shared",
        PathKind::Reconfigurable => "reconfigurable",
    }
}

/// Puts the record that says that a channel path is online to an image.
fn put_online(
    alloc: Global,
    text: &mut Vec<u8>,
    css: Css,
    path: Chpid,
    name: &Name,
) -> Result<(), AllocError>
    ensures { OnOk result (text.new.items ≡ text.old.items
        ++ compact_text (meaning.online_value (record { css = css; path = path; name = name.now }))) }
{
    put(alloc, UntilOnlineName(css), text)?;
    put_quoted(text, name.as_bytes())?;
    put(alloc, OnlineEnd(path), text)?;
    Ok(())
}

/// The part of such a record up to the name of the image.
#[derive(Clone, Copy)]
struct UntilOnlineName(Css);

impl fmt::Display for UntilOnlineName {
    ghost use Rattle.std.specs.Prelude.{Some, codes};
    ghost use Rattle.std.specs.Fmt.{decimal};

    ghost output = { λ o. Some (codes "{\"css\":" ++ (decimal o.0 ++ codes ",\"kind\":\"online\",\"name\":")) };

    fn fmt<W: fmt::Write>(&self, f: &mut fmt::Formatter<W>) -> fmt::Result {
        let css = self.0.number();
        write!(f, "{{\"css\":{css},\"kind\":\"online\",\"name\":")
    }
}

/// The part of such a record from the name to the end.
#[derive(Clone, Copy)]
struct OnlineEnd(Chpid);

impl fmt::Display for OnlineEnd {
    ghost use Rattle.std.specs.Prelude.{Some, codes};
    ghost use Rattle.iocm_types.specs.Print.{hex2};

    ghost output = { λ o. Some (codes ",\"path\":\"" ++ (hex2 o.0 ++ codes "\"}")) };

    fn fmt<W: fmt::Write>(&self, f: &mut fmt::Formatter<W>) -> fmt::Result {
        let path = self.0;
        write!(f, ",\"path\":\"{path}\"}}")
    }
}
