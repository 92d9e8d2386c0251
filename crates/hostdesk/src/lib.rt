// The C function by which a host has a case written, reached by way of entry/calls.c. It stands apart from `host`, and
// so in an object file of its own: the compiler makes the judge's code as if there were no desk beside it.
#![tactic(auto)]

ghost use Rattle.std.specs.Prelude.{◌≡◌, length};
ghost use Rattle.desk.specs.Drafts.{desk_answer, buffer_after};
ghost use Rattle.host.specs.Answers.{code_of};

use refusals::Answer;

// Writes the case of a draft into the buffer.
pub fn snaldrek_proved_write_case(draft: &[u8], buffer: &mut [u8]) -> u32
    ensures value { result ≡ code_of (desk_answer draft.now (length buffer.old)) }
    ensures buffer_after { buffer.new ≡ buffer_after draft.now buffer.old }
{
    host::code(Answer::from(desk::write(draft, buffer)))
}
