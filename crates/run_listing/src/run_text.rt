// The text of a simulated exchange: how each drive ends, then the core and the number of stops.
ghost use Rattle.std.specs.Prelude.{◌≤◌};
ghost use Rattle.drive_sets.specs.Filled.{Filled};
ghost use Rattle.drive_sets.specs.Limits.{max_drives};
ghost use Rattle.drive_sets.specs.Lists.{range};
ghost use Rattle.run_listing.specs.RunListing.{ending_text, drive_line, core_line};
ghost use Rattle.simulated_decisions.specs.Endings.{ending_for, ending_at};
ghost use Rattle.run_listing.specs.RunParts.{drive_lines};

use drive_sets::Drive;
use simulated_decisions::noting::First;
use simulation::simulating::Simulated;
use text::Base;
use text::lines::{put_line, put_named};
use text::text::put_all;

// How a drive ends, from whether it has a CR and its first decision.
fn put_ending(buf: &mut [u8], at: usize, crashes: bool, first: Option<First>) -> usize
    ensures { Filled buf.old buf.new at result (ending_text (ending_for crashes first)) }
{
    if crashes {
        return put_all(buf, at, b" stopped");
    }
    match first {
        None => put_all(buf, at, b" undecided"),
        Some(first) => {
            let decided = put_named(
                buf,
                at,
                b" decides",
                Base::Decimal,
                u64::from(first.number.0),
            );
            put_named(
                buf,
                decided,
                b" round",
                Base::Decimal,
                u64::from(first.round.0),
            )
        }
    }
}

// The line of a drive.
fn put_drive(buf: &mut [u8], at: usize, d: Drive, s: &Simulated) -> usize
    requires { (1 ≤ d.0) × (d.0 ≤ max_drives) }
    ensures { Filled buf.old buf.new at result (drive_line d.0 (ending_at s.now.crashed s.now.found d.0)) }
{
    let first = s.found[(d.0 - 1) as usize];
    let headed = put_named(buf, at, b"drive", Base::Decimal, u64::from(d.0));
    let ended = put_ending(buf, headed, drive_sets::has(d, s.crashed), first);
    put_all(buf, ended, b"\n")
}

// The lines of the drives 1 to n, from the buffer's first place on.
pub(crate) fn put_drives(buf: &mut [u8], n: u8, s: &Simulated) -> usize
    requires { n ≤ max_drives }
    ensures { Filled buf.old buf.new 0 result (drive_lines (ending_at s.now.crashed s.now.found) (range 1 n)) }
{
    let mut at = 0;
    for i in 0..n {
        at = put_drive(buf, at, Drive(i + 1), s);
    }
    at
}

// The last line: the core and the number of stops.
pub(crate) fn put_core_line(buf: &mut [u8], at: usize, core: u64, stops: u8) -> usize
    ensures { Filled buf.old buf.new at result (core_line core stops) }
{
    let cored = put_named(buf, at, b"core", Base::Hexadecimal, core);
    put_line(buf, cored, b" stops", Base::Decimal, u64::from(stops))
}
