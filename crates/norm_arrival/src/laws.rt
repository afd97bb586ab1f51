//! Laws of folders that are sent. Each law is the contract of a function that does nothing.

ghost use Rattle.norm_arrival.specs.FolderArrives.{FolderArrives};
ghost use Rattle.norm_arrival.specs.FolderCanRun.{FolderCanRun};
ghost use Rattle.norm_arrival.specs.FolderDiffers.{FolderDiffers};
ghost use Rattle.norm_arrival.specs.FolderHandsUp.{FolderHandsUp};

/// Over an honest network a folder arrives. In a whole run of its script in which nothing was refused and nothing expired, each receiver hands up the
/// manifest and then exactly the files, if their contents did not change.
pub fn folder_arrives()
    ensures { FolderArrives }
{}

/// So each receiver hands up exactly the manifest, and then each file with the octets that it has.
pub fn folder_hands_up()
    ensures { FolderHandsUp }
{}

/// Over an honest network, a file that was handed up with another length or digest than its line of the manifest is refused by the check of whoever
/// handed it up.
pub fn folder_differs()
    ensures { FolderDiffers }
{}

/// A session can run the script of a folder: it has at most 2,050 commands, each of which is numbered.
pub fn folder_can_run()
    ensures { FolderCanRun }
{}
