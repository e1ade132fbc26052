ghost use Rattle.std.specs.Prelude.{◌≡◌, length, slice_get, IfOk};

use crate::carried::copy_carried;
use crate::copies::{copy_device, copy_path, copy_unit};
use crate::names::{
    device_names, device_names_len, path_names, path_names_len, unit_names, unit_names_len,
};
use crate::{Carried, DeviceLists};
use iocm_types::{
    Chpid, Css, CssLink, CssPath, DevNo, Key, List, Mif, Name, Named, PathKind, SetNo, UnitNo,
    UnitRange,
};
use std::alloc::{AllocError, Allocator, Global};
use std::marker::Model;

/// A channel path: how it is used, and the names of the images in its access and its candidate
/// list, each list ascending with each name once (IOCP User's Guide, CHPID statement).
#[derive(Drop)]
pub struct PathFields<A: Allocator = Global> {
    /// The channel subsystem of the path.
    pub css: Css,
    /// Its number there, 00 to FF.
    pub number: Chpid,
    /// How images use it.
    pub kind: PathKind,
    /// The images of its access list, by name.
    pub access: List<Name, A>,
    /// The images of its candidate list, by name.
    pub candidates: List<Name, A>,
    /// What its statement carries along, in the order of the text.
    pub carried: Vec<Carried<A>, A>,
}

/// A control unit: its paths and their links in the order of the text, channel subsystems
/// ascending, its ranges of unit addresses, and its CUADD (IOCP User's Guide, CNTLUNIT statement).
#[derive(Drop)]
pub struct UnitFields<A: Allocator = Global> {
    /// Its number, 0000 to FFFE.
    pub number: UnitNo,
    /// The channel paths that reach it.
    pub paths: List<CssPath, A>,
    /// The unit addresses that it answers to.
    pub ranges: List<UnitRange, A>,
    /// The links of its paths; in a channel subsystem with links the first is that of its first
    /// path there, and so on.
    pub links: List<CssLink, A>,
    /// Its control unit address (CUADD), 00 to FF, where it has one.
    pub cuadd: Option<u8>,
    /// What its statement carries along, in the order of the text.
    pub carried: Vec<Carried<A>, A>,
}

/// A device: its number, its unit address, and its lists (IOCP User's Guide, IODEVICE statement).
#[derive(Drop)]
pub struct DeviceFields<A: Allocator = Global> {
    /// The subchannel set of its subchannels.
    pub set: SetNo,
    /// Its number in the set, 0000 to FFFF.
    pub number: DevNo,
    /// Its unit address on each control unit that reaches it, 00 to FF.
    pub unit_address: u8,
    /// The control units that reach it; the images that may use it, by name: without a list all may,
    /// with an empty list none; and what its statement carries along, in the order of the text.
    pub lists: DeviceLists<A>,
}

/// The eight kinds of records with their fields. A `Record` has one of these inside. The kinds are
/// own; they follow the statements of the IOCP User's Guide.
#[derive(Drop)]
pub enum RecordBody<A: Allocator = Global> {
    /// What an ID statement carries.
    Id(Vec<Carried<A>, A>),
    /// What a RESOURCE statement carries.
    Resource(Vec<Carried<A>, A>),
    /// An image: its channel subsystem, its MIF image ID there, and its name.
    Image(Css, Mif, Name),
    /// Below which number the subchannels of a set stay in a channel subsystem.
    Limit(Css, SetNo, u16),
    /// A channel path.
    Path(Box<PathFields<A>, A>),
    /// A control unit.
    Unit(Box<UnitFields<A>, A>),
    /// A device.
    Device(DeviceFields<A>),
    /// That a path of a channel subsystem is online to the image of this name.
    Online(Css, Chpid, Name),
}

/// A record of a configuration. Contracts see it as a plain value, whatever its allocator.
pub struct Record<A: Allocator = Global> {
    body: RecordBody<A>,
}

/// Written by hand, so that how the eight kinds are let go is proved here alone, and not in each
/// crate that lets a record go.
impl<A: Allocator> Drop for Record<A> {
    fn drop(self) {
        let Record { body } = self;
        drop(body);
    }
}

impl<A: Allocator> Model for Record<A> {
    ghost use Rattle.iocm_model.specs.Machine.Record.{Rec};

    ghost Value = { Rec };

    ghost use Rattle.iocm_record.specs.Meaning.{record_of};

    ghost view = { λ r. record_of r.body };
}

impl<A: Allocator> Record<A> {
    ghost use Rattle.iocm_model.specs.Machine.Record.{key_of, path, unit};
    ghost use Rattle.iocm_model.specs.Machine.Naming.{named_by};
    ghost use Rattle.iocm_record.specs.Meaning.{path_of, record_of, unit_of};

    /// The record with these fields.
    pub fn new(body: RecordBody<A>) -> Self
        ensures { result ≡ record_of body }
    {
        Record { body }
    }

    /// The record of a channel path. Answers the lack of memory alone.
    pub fn of_path(alloc: A, fields: PathFields<A>) -> Result<Self, AllocError>
        ensures { IfOk result (λ r. r ≡ path (path_of fields)) }
    {
        Ok(Record::new(RecordBody::Path(Box::new(alloc, fields)?)))
    }

    /// The record of a control unit. Answers the lack of memory alone.
    pub fn of_unit(alloc: A, fields: UnitFields<A>) -> Result<Self, AllocError>
        ensures { IfOk result (λ r. r ≡ unit (unit_of fields)) }
    {
        Ok(Record::new(RecordBody::Unit(Box::new(alloc, fields)?)))
    }

    /// Its fields.
    pub fn body(&self) -> &RecordBody<A>
        ensures { record_of result.now ≡ self.now }
    {
        &self.body
    }

    /// The key that the record stands under. A configuration has at most one record of each key.
    pub fn key(&self) -> Key
        ensures { result ≡ key_of self.now }
    {
        match &self.body {
            RecordBody::Id(_) => Key::Id,
            RecordBody::Resource(_) => Key::Resource,
            RecordBody::Image(css, mif, _) => Key::Image(*css, *mif),
            RecordBody::Limit(css, set, _) => Key::Limit(*css, *set),
            RecordBody::Path(path) => Key::Path(path.css, path.number),
            RecordBody::Unit(unit) => Key::Unit(unit.number),
            RecordBody::Device(device) => Key::Device(device.set, device.number),
            RecordBody::Online(css, path, name) => Key::Online(*css, *path, *name),
        }
    }

    /// How many things the record names.
    pub fn names_len(&self) -> usize
        ensures { result ≡ length (named_by self.now) }
    {
        match &self.body {
            RecordBody::Path(path) => {
                path_names_len(path.access.as_slice(), path.candidates.as_slice())
            }
            RecordBody::Unit(unit) => unit_names_len(unit.paths.as_slice()),
            RecordBody::Device(device) => {
                device_names_len(device.lists.units(), device.lists.candidates())
            }
            RecordBody::Online(_, _, _) => 2,
            _ => 0,
        }
    }

    /// The thing at a place, counted from 0, of all that the record names: a device its units,
    /// its unit address at each of these and the images of its candidates, a unit its paths, a path
    /// the images of its access and its candidate list, an online record its path and its image.
    /// Nothing past the end.
    pub fn names(&self, place: usize) -> Option<Named>
        ensures { result ≡ slice_get (named_by self.now) place }
    {
        match &self.body {
            RecordBody::Path(path) => path_names(
                path.access.as_slice(),
                path.candidates.as_slice(),
                place,
            ),
            RecordBody::Unit(unit) => unit_names(unit.paths.as_slice(), place),
            RecordBody::Device(device) => device_names(
                device.lists.units(),
                device.unit_address,
                device.lists.candidates(),
                place,
            ),
            RecordBody::Online(css, path, name) => match place {
                0 => Some(Named::Record(Key::Path(*css, *path))),
                1 => Some(Named::Image(*name)),
                _ => None,
            },
            _ => None,
        }
    }

    /// An equal record under another allocator. Answers the lack of memory alone.
    pub fn copy_in<B: Allocator + Clone>(&self, alloc: B) -> Result<Record<B>, AllocError>
        ensures { IfOk result (λ copy. copy ≡ self.now) }
    {
        let body = match &self.body {
            RecordBody::Id(carried) => RecordBody::Id(copy_carried(carried, alloc)?),
            RecordBody::Resource(carried) => RecordBody::Resource(copy_carried(carried, alloc)?),
            RecordBody::Image(css, mif, name) => RecordBody::Image(*css, *mif, *name),
            RecordBody::Limit(css, set, limit) => RecordBody::Limit(*css, *set, *limit),
            RecordBody::Path(path) => return Record::of_path(
                alloc.clone()?,
                copy_path(path, alloc)?,
            ),
            RecordBody::Unit(unit) => return Record::of_unit(
                alloc.clone()?,
                copy_unit(unit, alloc)?,
            ),
            RecordBody::Device(device) => RecordBody::Device(copy_device(device, alloc)?),
            RecordBody::Online(css, path, name) => RecordBody::Online(*css, *path, *name),
        };
        Ok(Record { body })
    }
}
