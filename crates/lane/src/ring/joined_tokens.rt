//! The tokens of a lane's two ends, joined while one thread has both.
ghost use Rattle.std.specs.Prelude.{◌≡◌, true};
ghost use Rattle.lane.specs.Ring.{that_takes, that_sends, that_does_both};
ghost use Rattle.lane.specs.Ends.{IsTokenOf};

use super::plays::{Apart, Together};
use super::{Ring, Token};

/// Makes the intake's token one that sends too.
pub(crate) fn join<T>(ring: &Ring<T>, intake: &mut Token<T>, port: Token<T>)
    requires tokens { IsTokenOf ring.now.shared.table_id intake.old
        × IsTokenOf ring.now.shared.table_id port }
    requires roles { (intake.old.me.0.takes ≡ true) × (port.me.0.sends ≡ true) }
    ensures token { IsTokenOf ring.now.shared.table_id intake.new }
    ensures both { intake.new.me.0 ≡ that_does_both intake.old.me.0 port.me.0 }
{
    ring.shared.join_seat::<Together>(intake, port);
}

/// Leaves a token that both sends and takes as the intake's, and returns the port's.
pub(crate) fn part<T>(ring: &Ring<T>, intake: &mut Token<T>) -> Token<T>
    requires token { IsTokenOf ring.now.shared.table_id intake.old }
    requires roles { (intake.old.me.0.takes ≡ true) × (intake.old.me.0.sends ≡ true) }
    ensures tokens { IsTokenOf ring.now.shared.table_id intake.new
        × IsTokenOf ring.now.shared.table_id result }
    ensures intake { intake.new.me.0 ≡ that_takes intake.old.me.0 }
    ensures port { result.me.0 ≡ that_sends intake.old.me.0 }
{
    ring.shared.split_seat::<Apart>(intake)
}
