//! What holds of replies, whatever the script and the trace.

ghost use Rattle.replay_run.specs.Laws.{EachHasOneReply};

/// A law of the answers, and no work: a trace has one reply.
pub fn one_reply()
    ensures { EachHasOneReply }
{}
