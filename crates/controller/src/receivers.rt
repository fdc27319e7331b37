// To whom the message of a core drive goes, in the order in which it is sent: the other core drives by rising number,
// then the listeners by rising number.
ghost use Rattle.std.specs.Prelude.{◌≡◌, ◌++◌, length};
ghost use Rattle.drive_sets.specs.Masks.{drives};
ghost use Rattle.drive_sets.specs.Lent.{written, fitting};
ghost use Rattle.lent_bytes.specs.LentBuffers.{Written};
ghost use Rattle.controller.specs.Receivers.{send_list};

use drive_sets::Refusal;
use drive_states::Exchange;

// The drives of m, rising, over the first places of the part; every other place stays. Nothing where they do not fit.
fn put_drives(part: &mut [u8], m: u64)
    ensures { part.new ≡ written (drives m) part.old }
{
    let size = drive_sets::size(m) as usize;
    if part.len() < size {
        return;
    }
    let mut rest = m;
    for i in 0..size {
        part[i] = drive_sets::lowest(rest).0;
        rest = drive_sets::without_lowest(rest);
    }
}

// The drives of the first set, then those of the second, over the first places of out; how many they are. 14 where
// there are too few places.
fn put_both(out: &mut [u8], first: u64, second: u64) -> Result<usize, Refusal>
    ensures { Written (fitting 0 (length out.old) (drives first ++ drives second)) 0 out.old out.new result }
{
    let start = drive_sets::size(first) as usize;
    let size = start + drive_sets::size(second) as usize;
    if out.len() < size {
        return Err(Refusal::NoRoom);
    }
    put_drives(out, first);
    put_drives(&mut out[start..], second);
    Ok(size)
}

// The list of a drive's sends over the first places of out. 28, 23, 27, 14; on a refusal out stays as it was. The first
// three tests are those of `sending::send`: one function for both would have to say what follows where they pass.
#[tactic(auto, unfolding(crate::specs::Receivers::send_list, drive_states::specs::State::in_core))]
pub(crate) fn send_list(x: &Exchange, out: &mut [u8]) -> Result<usize, Refusal>
    ensures { Written (send_list x.now (length out.old)) 0 out.old out.new result }
{
    if exchange::is_broken(x) {
        return Err(Refusal::BrokenState);
    }
    if x.halted {
        return Err(Refusal::Halted);
    }
    if !drive_sets::has(x.own, x.core) {
        return Err(Refusal::ListenerSends);
    }
    let others = drive_sets::remove(x.core, x.own);
    let listeners = drive_sets::outside(x.n, x.core);
    put_both(out, others, listeners)
}
