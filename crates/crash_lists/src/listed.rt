// The crashes of a list, as far as it was read.
ghost use Rattle.crash_lists.specs.Held.{Held};

use crate::note;
use drive_crashes::{Crashes, check_crash};
use drive_sets::{Drive, Refusal, Round};
use record_lists::RecordList;
use records::{CRASH_WIDTH, Due, Kind, Next, next_record};

// Of n drives with this chosen core: the crashes by drive, of which the last is of the highest drive, and how many.
#[derive(Drop)]
pub(crate) struct Listed {
    pub(crate) n: u8,
    pub(crate) core: u64,
    pub(crate) crashes: Crashes,
    pub(crate) last: Drive,
    pub(crate) count: usize,
    pub(crate) ghost held: { Held n crashes last.0 count },
}

impl RecordList for Listed {
    ghost use Rattle.std.specs.Prelude.{ℕ};
    ghost use Rattle.drive_crashes.specs.Crashes.{crashes_in};
    ghost use Rattle.crash_lists.specs.CrashLists.{CrashList, crash_list};

    ghost Setting = { ℕ × ℕ };

    ghost State = { CrashList };

    ghost setting = { λ l. (l.n, l.core) };

    ghost told = { λ l. record { crashes = crashes_in l.crashes; last = l.last.0 } };

    ghost format = { λ f. crash_list f.0 f.1 };

    // The list ends with EN.
    fn ends(&self, _s: &[u8]) -> bool {
        false
    }

    fn take(&mut self, s: &[u8]) -> Result<Option<usize>, Refusal> {
        match next_record(s, Due::AtRecordOrEnd(Kind::Crash), self.count)? {
            Next::End => Ok(None),
            Next::One => {
                let drive = Drive(s[2]);
                let round = Round(s[3]);
                let sends = s[4];
                check_crash(self.n, self.core, self.last, drive, round, sends)?;
                note(&mut self.crashes, drive, round, sends);
                self.last = drive;
                self.count += 1;
                Ok(Some(CRASH_WIDTH))
            }
        }
    }
}
