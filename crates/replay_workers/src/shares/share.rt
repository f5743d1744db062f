//! A proxy's share.

ghost use Rattle.std.specs.Prelude.{◌<◌, ◌↔◌, IsTrue};
ghost use Rattle.replay_workers.specs.Share.{unanswered};

/// Returns whether a proxy that has sent `sent` batches and received `answered` answers may send
/// one more within its share: fewer of its batches than that are unanswered.
pub fn is_below_share(sent: u64, answered: u64, share: u64) -> bool
    ensures below { IsTrue result ↔ (unanswered sent answered < share) }
{
    sent.saturating_sub(answered) < share
}
