//! Facts about patches, for the crates above. The call does nothing.
ghost use Rattle.yp_edit.specs.PatchLaws.{PatchesKeepDatastores};

use yp_data_json::holding::what_is_read_is_whole;

/// A patch leaves a datastore a datastore.
pub fn a_patch_keeps_a_datastore()
    ensures { PatchesKeepDatastores }
{
    what_is_read_is_whole();
}
