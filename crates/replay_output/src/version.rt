//! The version of an answer.

ghost use Rattle.std.specs.Prelude.{◌≡◌};
ghost use Rattle.keyspace.specs.Answer.{version_of_answer};

use keyspace::Answer;

/// Returns the version of the batch that is answered.
pub fn version_of(answer: &Answer) -> i64
    ensures version { result ≡ version_of_answer answer.now }
{
    match answer {
        Answer::Reply(reply) => reply.version,
        Answer::Never(version) | Answer::Held(version) => *version,
    }
}
