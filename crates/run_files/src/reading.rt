// The run file reader: PR or PW for each core drive, CR, EN with their count, nothing after it, and a survivor set that
// no crash touches.
ghost use Rattle.std.specs.Prelude.{◌≡◌, ◌≤◌, IfOk, length};
ghost use Rattle.run_files.specs.RunFiles.{read_records, read_behind, read_run_file};
ghost use Rattle.run_files.specs.Reading.{records_outcome, run_file_outcome};
ghost use Rattle.drive_sets.specs.Limits.{max_drives};

use crash_lists::read_crashes;
use drive_crashes::Crashes;
use drive_sets::{Pattern, Refusal};
use proposal_lists::read_proposals;
use survivor_tables::missed::first_missed;
use tables::calls::chosen_core;

// What a run file says: the pattern numbers, drive 1 first, with 0 at a listener's place, and the crashes by drive.
#[derive(Clone, Copy)]
pub struct RunFile {
    pub numbers: [Pattern; 64],
    pub crashes: Crashes,
}

// What the records of a run file say, and how many bytes they took with EN.
#[derive(Clone, Copy)]
struct RunRecords {
    file: RunFile,
    used: usize,
}

// PR or PW, CR, EN of a file for n drives with this chosen core, with anything behind it.
fn read_records(s: &[u8], n: u8, core: u64) -> Result<RunRecords, Refusal>
    requires { n ≤ max_drives }
    ensures value { records_outcome n result s.now ≡ read_records n core s.now }
    ensures within { IfOk result (λ r. r.used ≤ length s.now) }
{
    let given = read_proposals(s, n, core)?;
    let listed = read_crashes(&s[given.used..], n, core)?;
    let numbers = given.numbers;
    let crashes = listed.crashes;
    Ok(RunRecords {
        file: RunFile { numbers, crashes },
        used: given.used + listed.used,
    })
}

// The run file behind an accepted table with this chosen core. 7, bytes after the end; 11, every survivor set has a
// drive with a CR.
fn read_behind(n: u8, core: u64, sets: &[u64], s: &[u8]) -> Result<RunFile, Refusal>
    requires { n ≤ max_drives }
    ensures { run_file_outcome n result ≡ read_behind n core sets.now s.now }
{
    let read = read_records(s, n, core)?;
    if read.used < s.len() {
        return Err(Refusal::TrailingBytes);
    }
    if first_missed(sets, read.file.crashes.crashed).is_none() {
        return Err(Refusal::NoneUntouched);
    }
    Ok(read.file)
}

// The run file reader, given n and sets and the bytes behind their table: the table's refusals, then those of the file.
pub fn read_run_file(n: u8, sets: &[u64], s: &[u8]) -> Result<RunFile, Refusal>
    ensures { run_file_outcome n result ≡ read_run_file n sets.now s.now }
{
    let core = chosen_core(n, sets)?;
    read_behind(n, core, sets, s)
}
