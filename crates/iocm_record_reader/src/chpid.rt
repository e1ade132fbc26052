ghost use Rattle.std.specs.Prelude.{◌≡◌, ◌++◌, map, IfOk, OnOk};
ghost use Rattle.iocm_types.specs.Fault.{Gives};
ghost use Rattle.iocm_operands.specs.Resource.{names_in};
ghost use Rattle.iocm_record_reader.specs.ChpidRecords as meaning;

use crate::operands::carried_by;
use iocm_operands::{ImageEntry, Partition, names_in, partition_of, path_of};
use iocm_record::{Carried, PathFields, Record, RecordBody};
use iocm_statements::{Operands, Operation, or_malformed};
use iocm_types::{Chpid, Css, CssPath, Fault, List, Name, PathKind};
use iocm_values::Value;
use std::alloc::{AllocError, Global};

/// The access and the candidate list of a path, each ascending with each name once.
#[derive(Drop)]
pub struct Lists {
    /// The names of the access list.
    pub access: List<Name>,
    /// The names of the candidate list.
    pub candidates: List<Name>,
}

/// The path of PATH, which is required. Answers `malformed` where it isn't there or has none of its
/// forms, and M1 without memory.
pub fn chpid_path(alloc: Global, operands: &Operands, malformed: Fault) -> Result<CssPath, Fault>
    ensures { Gives (λ p. p) result (meaning.chpid_path malformed operands.now) }
{
    let text = operands.get(b"PATH").ok_or(malformed)?;
    or_malformed(path_of(alloc, Value::new(text)), malformed)
}

fn chpid_partition(
    alloc: Global,
    css: Css,
    operands: &Operands,
    malformed: Fault,
) -> Result<Option<Partition>, Fault>
    ensures { Gives (λ p. p) result (meaning.chpid_partition malformed css operands.now) }
{
    match operands.get(b"PARTITION") {
        Some(text) => {
            let partition = or_malformed(partition_of(alloc, css, Value::new(text)), malformed)?;
            Ok(Some(partition))
        }
        None => Ok(None),
    }
}

fn has_rec(partition: &Option<Partition>) -> bool
    ensures { result ≡ meaning.has_rec partition.now }
{
    match partition {
        Some(partition) => partition.is_reconfigurable,
        None => false,
    }
}

// How a path is used; SHARED and REC together are malformed.
fn kind_of(operands: &Operands, partition: &Option<Partition>) -> Option<PathKind>
    ensures { result ≡ meaning.kind_of operands.now partition.now }
{
    let is_shared = operands.has_bare(b"SHARED");
    let is_reconfigurable = operands.has_bare(b"REC") || has_rec(partition);
    match (is_shared, is_reconfigurable) {
        (true, true) => None,
        (true, false) => Some(PathKind::Shared),
        (false, true) => Some(PathKind::Reconfigurable),
        (false, false) => Some(PathKind::Dedicated),
    }
}

// The names of all images of a channel subsystem. They are gathered where a default wants them.
fn all_names(alloc: Global, css: Css, images: &[ImageEntry]) -> Result<List<Name>, AllocError>
    ensures { IfOk result (λ list. list ≡ names_in css images.now) }
{
    Ok(List::from_vec(names_in(alloc, css, images)?))
}

fn default_candidates(
    alloc: Global,
    css: Css,
    images: &[ImageEntry],
    kind: PathKind,
    access: &List<Name>,
) -> Result<List<Name>, AllocError>
    ensures { IfOk result (λ list. list ≡ meaning.default_candidates kind (names_in css images.now) access.now) }
{
    match kind {
        PathKind::Dedicated => access.copy_in(alloc),
        PathKind::Shared => all_names(alloc, css, images),
        PathKind::Reconfigurable => all_names(alloc, css, images),
    }
}

fn default_lists(
    alloc: Global,
    css: Css,
    images: &[ImageEntry],
    kind: PathKind,
) -> Result<Lists, AllocError>
    ensures { IfOk result (λ lists. lists ≡ meaning.default_lists kind (names_in css images.now)) }
{
    match kind {
        PathKind::Shared => Ok(Lists {
            access: all_names(alloc, css, images)?,
            candidates: all_names(alloc, css, images)?,
        }),
        _ => Ok(Lists {
            access: List::from_vec(Vec::new(alloc)),
            candidates: List::from_vec(Vec::new(alloc)),
        }),
    }
}

// The lists of a path, with PARTITION or without.
fn lists_of(
    alloc: Global,
    css: Css,
    images: &[ImageEntry],
    kind: PathKind,
    partition: Option<Partition>,
) -> Result<Lists, AllocError>
    ensures { IfOk result (λ lists. lists ≡ meaning.lists_of kind (names_in css images.now) partition) }
{
    match partition {
        Some(partition) => {
            let Partition {
                access,
                candidates,
                is_reconfigurable: _,
            } = partition;
            let candidates = match candidates {
                Some(candidates) => candidates,
                None => default_candidates(alloc, css, images, kind, &access)?,
            };
            Ok(Lists { access, candidates })
        }
        None => default_lists(alloc, css, images, kind),
    }
}

/// Puts a record for each name behind the others: the path is online to its image.
pub fn add_online(
    records: &mut Vec<Record>,
    css: Css,
    path: Chpid,
    names: &[Name],
) -> Result<(), AllocError>
    ensures { OnOk result (records.new.items ≡ records.old.items ++ map (meaning.online_to css path) names.now) }
{
    for name in names {
        records.push(Record::new(RecordBody::Online(css, path, *name)))?;
    }
    Ok(())
}

fn path_records(
    alloc: Global,
    path: CssPath,
    kind: PathKind,
    lists: Lists,
    carried: Vec<Carried>,
) -> Result<Vec<Record>, AllocError>
    ensures { IfOk result (λ records. records.items ≡ meaning.path_records path kind lists carried.items) }
{
    let Lists { access, candidates } = lists;
    let online = access.copy_in(alloc)?;
    let mut records = Vec::with_capacity(alloc, 1 + online.as_slice().len())?;
    let fields = PathFields {
        css: path.css,
        number: path.path,
        kind,
        access,
        candidates,
        carried,
    };
    records.push(Record::of_path(alloc, fields)?)?;
    add_online(&mut records, path.css, path.path, online.as_slice())?;
    Ok(records)
}

/// The records of a CHPID statement in a machine of these images: the path, and one for each image
/// that it is online to. Answers `malformed` where a value is, or where SHARED and REC stand
/// together, and M1 without memory.
pub fn chpid_records(
    alloc: Global,
    images: &[ImageEntry],
    operands: &Operands,
    malformed: Fault,
) -> Result<Vec<Record>, Fault>
    ensures { Gives (λ v. v.items) result (meaning.chpid_records malformed images.now operands.now) }
{
    let path = chpid_path(alloc, operands, malformed)?;
    let partition = chpid_partition(alloc, path.css, operands, malformed)?;
    let kind = kind_of(operands, &partition).ok_or(malformed)?;
    let lists = lists_of(alloc, path.css, images, kind, partition)?;
    let carried = carried_by(alloc, Operation::Chpid, operands)?;
    Ok(path_records(alloc, path, kind, lists, carried)?)
}
