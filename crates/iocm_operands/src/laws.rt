//! What holds of the definitions themselves. Each law is the contract of a function that does
//! nothing.
ghost use Rattle.std.specs.Prelude.{◌≡◌, true, false, [], ◌∷◌, codes};
ghost use Rattle.iocm_types.specs.declared.link.Link.TheVariants as link;
ghost use Rattle.iocm_operands.specs.Again.{ReadsPathAgain, ReadsNumberAgain, ReadsCuaddAgain};
ghost use Rattle.iocm_operands.specs.Again.{ReadsFirstAddressAgain, ReadsSetAgain};
ghost use Rattle.iocm_operands.specs.Again.{ReadsDevicesAgain, ReadsUnitsAgain, ReadsRangesAgain};
ghost use Rattle.iocm_operands.specs.Again.{ReadsCandidatesAgain, ReadsPartitionAgain};
ghost use Rattle.iocm_operands.specs.Again.{ReadsPathsAgain, ReadsLinksAgain};
ghost use Rattle.iocm_operands.specs.Again.{ReadsImagesAgain, ReadsLimitsAgain};
ghost use Rattle.iocm_operands.specs.ChpidPath.{path_text};
ghost use Rattle.iocm_operands.specs.ChpidPartition.{partition_text};
ghost use Rattle.iocm_operands.specs.Device.{devices_text, units_text};
ghost use Rattle.iocm_operands.specs.Limits.{limits_text};
ghost use Rattle.iocm_operands.specs.Resource.{images_text};
ghost use Rattle.iocm_operands.specs.Unit.{paths_text, ranges_text, links_text};
ghost use Rattle.iocm_operands.specs.Given.{GivesPath, GivesNumber, GivesCuadd, GivesFirstAddress};
ghost use Rattle.iocm_operands.specs.Given.{GivesSet, GivesDevices, GivesUnits, GivesRanges};
ghost use Rattle.iocm_operands.specs.Given.{GivesCandidates, GivesPartition, GivesPaths};
ghost use Rattle.iocm_operands.specs.Given.{GivesLinks, GivesImages, GivesLimits};
ghost use Rattle.iocm_values.specs.NameSet.{names_text};

/// Worked examples: each operand as it is written.
pub fn operands_are_written()
    ensures images { images_text
        (record { css = 0; mif = 1; name = codes "LPA" }
        ∷ record { css = 0; mif = 15; name = codes "LPB" }
        ∷ record { css = 4; mif = 10; name = codes "LPC" } ∷ [])
        ≡ codes "((CSS(0),(LPA,1),(LPB,F)),(CSS(4),(LPC,A)))" }
    ensures limits { limits_text
        (record { css = 0; set = 1; limit = 5 }
        ∷ record { css = 5; set = 0; limit = 65535 }
        ∷ record { css = 5; set = 3; limit = 0 } ∷ [])
        ≡ codes "((CSS(0),,5),(CSS(5),65535,,,0))" }
    ensures path { path_text (record { css = 0; path = 80 }) ≡ codes "(CSS(0),50)" }
    ensures partition { partition_text (codes "LPA" ∷ []) (codes "LPA" ∷ codes "LPB" ∷ []) true
        ≡ codes "((LPA),(LPA,LPB),REC)" }
    ensures no_access { partition_text [] (codes "LPA" ∷ []) false ≡ codes "(0,(LPA))" }
    ensures paths { paths_text
        (record { css = 0; path = 80 } ∷ record { css = 0; path = 5 } ∷ record { css = 3; path = 255 } ∷ [])
        ≡ codes "((CSS(0),50,05),(CSS(3),FF))" }
    ensures ranges { ranges_text (record { start = 0; count = 16 } ∷ record { start = 32; count = 8 } ∷ [])
        ≡ codes "((00,16),(20,8))" }
    ensures links { links_text
        (record { css = 1; link = link.Short 26 }
        ∷ record { css = 1; link = link.None }
        ∷ record { css = 1; link = link.Long 26 } ∷ [])
        ≡ codes "((CSS(1),1A,**,001A))" }
    ensures devices { devices_text (record { first = 4096; count = 4 }) ≡ codes "(1000,4)" }
    ensures units { units_text (4096 ∷ 4097 ∷ []) ≡ codes "(1000,1001)" }
    ensures no_names { names_text [] ≡ codes "0" }
{}

/// PATH of CHPID, as it is written, is read as the path that was written.
pub fn path_is_read_again()
    ensures { ReadsPathAgain }
{}

/// So are the operands that are one number: CUNUMBR and CUADD of CNTLUNIT, UNITADD and SCHSET of
/// IODEVICE.
pub fn numbers_are_read_again()
    ensures number { ReadsNumberAgain }
    ensures cuadd { ReadsCuaddAgain }
    ensures first_address { ReadsFirstAddressAgain }
    ensures set { ReadsSetAgain }
{}

/// So is ADDRESS of IODEVICE.
pub fn devices_are_read_again()
    ensures { ReadsDevicesAgain }
{}

/// So is CUNUMBR of IODEVICE, in the order of the units.
pub fn units_are_read_again()
    ensures { ReadsUnitsAgain }
{}

/// So is UNITADD of CNTLUNIT, in the order of the ranges.
pub fn ranges_are_read_again()
    ensures { ReadsRangesAgain }
{}

/// So is PARTITION of IODEVICE: a set of names.
pub fn candidates_are_read_again()
    ensures { ReadsCandidatesAgain }
{}

/// So is PARTITION of CHPID: two sets of names, and whether the path is reconfigurable.
pub fn partition_is_read_again()
    ensures { ReadsPartitionAgain }
{}

/// So is PATH of CNTLUNIT, with its channel subsystems ascending.
pub fn paths_are_read_again()
    ensures { ReadsPathsAgain }
{}

/// So is LINK of CNTLUNIT, with its channel subsystems ascending.
pub fn links_are_read_again()
    ensures { ReadsLinksAgain }
{}

/// So is PARTITION of RESOURCE, with its channel subsystems ascending.
pub fn images_are_read_again()
    ensures { ReadsImagesAgain }
{}

/// So is MAXDEV of RESOURCE, with its channel subsystems and their sets ascending.
pub fn limits_are_read_again()
    ensures { ReadsLimitsAgain }
{}

/// What a reader gives is a value that its operand can have, so what was read is written and read
/// again.
pub fn what_is_read_can_be_written()
    ensures path { GivesPath }
    ensures number { GivesNumber }
    ensures cuadd { GivesCuadd }
    ensures first_address { GivesFirstAddress }
    ensures set { GivesSet }
    ensures devices { GivesDevices }
    ensures units { GivesUnits }
    ensures ranges { GivesRanges }
    ensures candidates { GivesCandidates }
    ensures partition { GivesPartition }
    ensures paths { GivesPaths }
    ensures links { GivesLinks }
    ensures images { GivesImages }
    ensures limits { GivesLimits }
{}
