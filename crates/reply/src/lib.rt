// What a program writes for the answer of a call.
#![tactic(auto)]

ghost use Rattle.std.specs.Prelude.{take};
ghost use Rattle.reply.specs.Reply.{ReplyPre, Replied, reply_bytes};

use base::Answer;
use plan_fields::heads::put_refusal;
use plan_format::REFUSAL_SIZE;

// The bytes that an accepted call has written at the start of the buffer stay. For a refused one the field of the refusal is put there.
// Returns the length of what the program is to write.
pub fn put_reply(out: &mut [u8], answer: Answer) -> usize
    requires { ReplyPre out.old answer }
    ensures { Replied (reply_bytes answer (take answer.length out.old)) out.old out.new result }
{
    if answer.number == 0 {
        return answer.length;
    }
    put_refusal(out, answer.number, answer.place as u64);
    REFUSAL_SIZE
}
