// What every call on the words of the whole chip shares: the answer of a call that is no access, and, in specs/, how an
// answer is told of the chip behind the call, and what checks 1 and 2 decide.
#![tactic(auto)]

ghost use Rattle.std.specs.Prelude.{◌≡◌, None};
ghost use Rattle.access.specs.Answered.{plain_answer};

use access::Answer;

// An answer without server, value and report: that of a command, a transfer, or a fresh start.
pub fn done() -> Answer
    ensures { result ≡ plain_answer None 0 }
{
    access::plain(None, 0)
}
