// The opening of an exchange from a table, a drive number and a pattern number.
#![tactic(auto)]

ghost use Rattle.agreement.specs.Calls.{opening};
ghost use Rattle.exchange.specs.Replies.{Replied};

use drive_sets::{Drive, Pattern, Refusal};
use drive_states::Exchange;
use exchange::starting::initial;
use tables::calls::chosen_core;

// An opening from a table, a drive number and a pattern number: the table's refusals, then 8. It is lent the state that
// the drive has, which a refusal keeps.
#[tactic(auto, using(crate::proofs::Opens::by_core))]
pub fn open(
    x: &mut Exchange,
    n: u8,
    sets: &[u64],
    own: Drive,
    number: Pattern,
) -> Result<(), Refusal>
    ensures { Replied (opening n sets.now own.0 number.0) x.old x.new result }
{
    let core = chosen_core(n, sets)?;
    if !drive_sets::is_drive(n, own) {
        return Err(Refusal::DriveNumber);
    }
    *x = initial(n, core, own, number);
    Ok(())
}
