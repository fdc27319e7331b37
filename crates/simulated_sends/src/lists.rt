// To whom a sender's message goes: the other core drives, rising, then the listeners, rising, as far as the sends go.
ghost use Rattle.std.specs.Prelude.{◌≡◌, true, [], map, ℕ, ◌≤◌, length, take};
ghost use Rattle.std.specs.Iterator.{YieldsFirstBy, item_count};
ghost use Rattle.drive_sets.specs.Lists.{elem};
ghost use Rattle.drive_sets.specs.Lent.{buffer_after};
ghost use Rattle.agreement.specs.Calls.{sending};
ghost use Rattle.agreement.specs.Canonical.{deliveries};
ghost use Rattle.runs.specs.World.{delivers};
ghost use Rattle.simulated_sends.specs.States.{list_for, due_of};

use drive_sets::{Drive, Drives};
use drive_states::Exchange;

// The drives that the message has still to go to.
#[derive(Clone, Copy)]
pub struct Due {
    pub others: Drives,
    pub listeners: Drives,
    pub left: u8,
}

impl Iterator for Due {
    type Item = Drive;

    ghost next_gives = { YieldsFirstBy (λ d. d.0) due_of };

    ghost remaining = { item_count due_of };

    fn next(&mut self) -> Option<Drive> {
        self.left = self.left.checked_sub(1)?;
        match self.others.next() {
            Some(to) => Some(to),
            None => self.listeners.next(),
        }
    }
}

// A message of so many bytes in a buffer, and to whom it goes.
#[derive(Clone, Copy)]
pub struct Sent {
    pub size: usize,
    pub due: Due,
}

// No message.
pub fn nothing() -> Sent
    ensures { (result.size ≡ 0) × (due_of result.due ≡ []) }
{
    let due = Due {
        others: Drives(0),
        listeners: Drives(0),
        left: 0,
    };
    Sent { size: 0, due }
}

// A sender's message into the buffer, for the first drives of its list; none where the send is refused. Behind the
// message the buffer is as it was, and on a refusal all of it is.
pub fn send_from(x: &Exchange, n: u8, core: u64, own: Drive, sends: u8, buf: &mut [u8]) -> Sent
    ensures calls { map (λ e. delivers e (take result.size buf.new)) (due_of result.due) ≡ deliveries (sending x.now (length buf.old) 0) (take sends (list_for n core own.0)) }
    ensures listed { (e : ℕ) → elem e (due_of result.due) ≡ true → elem e (list_for n core own.0) ≡ true }
    ensures within { result.size ≤ length buf.old }
    ensures lent { buf.new ≡ buffer_after (sending x.now (length buf.old) 0) 0 buf.old }
{
    match sending::send(x, buf, 0) {
        Err(_) => nothing(),
        Ok(size) => {
            let due = Due {
                others: Drives(drive_sets::remove(core, own)),
                listeners: Drives(drive_sets::outside(n, core)),
                left: sends,
            };
            Sent { size, due }
        }
    }
}
