// One round of the simulated exchange: all sends and their messages, then all closes.
ghost use Rattle.std.specs.Prelude.{◌≡◌, true, not, ◌&&◌, cond, [], map, ℕ, ◌^◌, ◌≤◌, ◌<◌, length, take};
ghost use Rattle.drive_sets.specs.Lists.{elem};
ghost use Rattle.drive_sets.specs.Masks.{has};
ghost use Rattle.agreement.specs.Calls.{sending};
ghost use Rattle.runs.specs.World.{opened, delivers, active};
ghost use Rattle.agreement.specs.Document01.{apply_all};
ghost use Rattle.runs.specs.Scenario.{Scenario, gone_before};
ghost use Rattle.agreement.specs.Sends.{cut};
ghost use Rattle.agreement.specs.Canonical.{room, deliveries, round_calls};
ghost use Rattle.simulated_sends.specs.States.{world_of, list_for, due_of};
ghost use Rattle.simulated_rounds.specs.Rounds.{crash_at, messages_of, Says};

use crate::Setting;
use drive_crashes::Crashes;
use drive_sets::{Drive, MAX_DRIVES, Round};
use drive_states::Exchange;
use message_writing::LONGEST;
use simulated_sends::lists;
use simulated_sends::lists::Sent;

impl Setting<'_> {
    // A core drive neither halted nor gone when the round begins, where x is its state then.
    fn is_sender(&self, x: &Exchange, d: Drive) -> bool
        ensures { result ≡ (has d.0 self.now.core && active (opened x.now) && not (gone_before (crash_at self.now.crashes.now d.0) self.now.round.0)) }
    {
        drive_sets::has(d, self.core) && !x.halted && !self.gone_before(d)
    }

    // The message of a drive in the buffer, and to whom it goes, where x is its state when the round begins; to nobody
    // where the drive is no sender.
    fn sent_by(&self, x: &Exchange, d: Drive, buf: &mut [u8]) -> Sent
        requires { length buf.old ≡ room }
        ensures calls { map (λ e. delivers e (take result.size buf.new)) (due_of result.due) ≡ cond (has d.0 self.now.core && active (opened x.now) && not (gone_before (crash_at self.now.crashes.now d.0) self.now.round.0)) (deliveries (sending x.now room 0) (cut (crash_at self.now.crashes.now d.0) self.now.round.0 (list_for self.now.n self.now.core d.0))) [] }
        ensures listed { (e : ℕ) → elem e (due_of result.due) ≡ true → elem e (list_for self.now.n self.now.core d.0) ≡ true }
        ensures within { result.size ≤ room }
    {
        if !self.is_sender(x, d) {
            return lists::nothing();
        }
        lists::send_from(x, self.n, self.core, d, self.sends_made(d), buf)
    }

    // The messages of all drives, each as it knew when the round began. A refusal keeps the state.
    fn send_all(&self, began: &[Exchange; 64], all: &mut [Exchange; 64])
        ensures { world_of self.now.n all.new ≡ apply_all (world_of self.now.n all.old) (messages_of self.now.n self.now.core began.now self.now.crashes.now self.now.round.0) }
    {
        let mut buf = [0u8; LONGEST];
        for i in 0..self.n {
            let sent = self.sent_by(&began[i as usize], Drive(i + 1), &mut buf);
            for to in sent.due {
                let _ = receiving::message(&mut all[(to.0 - 1) as usize], &buf[..sent.size]);
            }
        }
    }
}

// The states after a round that begins with these; where the frame does not hold the core, the same states.
pub fn one_round(states: &mut [Exchange; 64], n: u8, core: u64, crashes: &Crashes, round: Round)
    ensures value { n ≤ 64 → core < 2 ^ n → (s : Scenario) → Says n core crashes.now s → world_of n states.new ≡ apply_all (world_of n states.old) (round_calls s round.0 (world_of n states.old)) }
    ensures kept { (n ≤ 64 → core < 2 ^ n → ⊥) → states.new ≡ states.old }
{
    if n <= MAX_DRIVES && drive_sets::subset(core, drive_sets::full(n)) {
        let began = *states;
        let s = Setting {
            n,
            core,
            crashes,
            round,
        };
        s.send_all(&began, states);
        s.close_all(&began, states);
    }
}
