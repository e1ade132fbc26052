//! What holds of rows of devices and of images. Each law is the contract of a function that does
//! nothing.
ghost use Rattle.iocm_list.specs.AllDevices.{AllImagesAreListed, RowsAreTheDevices};
ghost use Rattle.iocm_list.specs.DeviceExamples.{
  AllAreTold,
  DevicesAreLeft,
  DevicesAreListed,
  seen_configuration,
};
ghost use Rattle.iocm_list.specs.DevicesAgain.{DeviceTableIsReadAgain, ImageTableIsReadAgain};

/// In a small configuration filters leave the devices and the images, and the tables of them are, as
/// they are worked by hand.
#[tactic(auto, using(crate::proofs::WorkedDevices::worked))]
pub fn devices_are_listed_as_worked()
    ensures left { DevicesAreLeft seen_configuration }
    ensures listed { DevicesAreListed seen_configuration }
    ensures all { AllAreTold }
{}

/// The words of the lines of both tables are the headings and the cells of the rows. So each line has
/// as many words as the heading.
#[tactic(auto, using(crate::proofs::WordedDevices::devices_again))]
pub fn tables_of_devices_are_read_again()
    ensures devices { DeviceTableIsReadAgain }
    ensures images { ImageTableIsReadAgain }
{}

/// Without filters, and of ranges of devices that are asked for, the rows written out are just those
/// devices, each once and in the order of keys. Without filters each image has a row.
#[tactic(auto, using(crate::proofs::WrittenOut::all_devices))]
pub fn rows_are_the_devices()
    ensures devices { RowsAreTheDevices }
    ensures images { AllImagesAreListed }
{}
