// A frame of drives and the sets of it: the tests of n and of one set or fault group, and a table as it is held.
ghost use Rattle.std.specs.Prelude.{◌≡◌};
ghost use Rattle.drive_sets.specs.Refusals.{outcome_of};
ghost use Rattle.survivor_tables.specs.Tables.{is_frame, is_set, checked_mask};

use crate::lists::MaskList;
use crate::{MAX_CORES, MAX_SETS};
use drive_sets::Refusal;

// What the masks of a list are: survivor sets, as in a table, or groups of drives that can fail together.
#[derive(Clone, Copy)]
pub enum MaskKind {
    SurvivorSet,
    FaultGroup,
}

// Lists in fixed memory: the sets of a table or the groups of a fault list, and cores.
pub type SetList = MaskList<MAX_SETS>;

pub type CoreList = MaskList<MAX_CORES>;

// A table: n drives, and its sets.
#[derive(Clone, Copy)]
pub struct Table {
    pub n: u8,
    pub sets: SetList,
}

// 1 to 64 drives.
pub fn is_frame(n: u8) -> bool
    ensures { result ≡ is_frame n }
{
    1 <= n && n <= drive_sets::MAX_DRIVES
}

// A set of the drives 1 to n, not empty.
pub fn is_set(n: u8, s: u64) -> bool
    ensures { result ≡ is_set n s }
{
    s != 0 && drive_sets::subset(s, drive_sets::full(n))
}

// What one mask of a list meets: of survivor sets 4; of fault groups 4 for a bit above n, then 34 for all n drives.
pub fn check_mask(kind: MaskKind, n: u8, m: u64) -> Result<(), Refusal>
    ensures { outcome_of result m ≡ checked_mask kind n m }
{
    match kind {
        MaskKind::SurvivorSet => {
            if !is_set(n, m) {
                return Err(Refusal::BadSet);
            }
            Ok(())
        }
        MaskKind::FaultGroup => {
            let all = drive_sets::full(n);
            if !drive_sets::subset(m, all) {
                return Err(Refusal::BadSet);
            }
            if m == all {
                return Err(Refusal::AllDrives);
            }
            Ok(())
        }
    }
}
