// The closes of a round: each drive not halted and with no CR up to this round.
ghost use Rattle.std.specs.Prelude.{◌≡◌, not, ◌&&◌, map};
ghost use Rattle.runs.specs.World.{opened, closes, active};
ghost use Rattle.agreement.specs.Document01.{apply_all};
ghost use Rattle.runs.specs.Scenario.{gone_by};
ghost use Rattle.simulated_sends.specs.States.{world_of};
ghost use Rattle.simulated_rounds.specs.Rounds.{crash_at, closers};

use crate::Setting;
use drive_sets::Drive;
use drive_states::Exchange;

impl Setting<'_> {
    // The drive that was in this state when the round began closes it.
    fn is_closer(&self, was: &Exchange, d: Drive) -> bool
        ensures { result ≡ (active (opened was.now) && not (gone_by (crash_at self.now.crashes.now d.0) self.now.round.0)) }
    {
        !was.halted && !self.gone_by(d)
    }

    // The closes of the drives 1 to n, where the round began with the states `began`. A refusal keeps the state.
    pub(crate) fn close_all(&self, began: &[Exchange; 64], all: &mut [Exchange; 64])
        ensures { world_of self.now.n all.new ≡ apply_all (world_of self.now.n all.old) (map closes (closers self.now.n began.now self.now.crashes.now self.now.round.0)) }
    {
        for i in 0..self.n {
            if self.is_closer(&began[i as usize], Drive(i + 1)) {
                let _ = exchange::closing::close(&mut all[i as usize]);
            }
        }
    }
}
