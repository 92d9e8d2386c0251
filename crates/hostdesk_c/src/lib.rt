// The function of `hostdesk` as C sees it, in an archive of its own; it hands on, and promises the same.
#![tactic(auto)]

ghost use Rattle.std.specs.Prelude.{◌≡◌, length};
ghost use Rattle.desk.specs.Drafts.{desk_answer, buffer_after};
ghost use Rattle.host.specs.Answers.{code_of};

// Writes the case of a draft into the buffer.
#[unsafe(no_mangle)]
pub extern "C" fn snaldrek_proved_write_case(draft: &[u8], buffer: &mut [u8]) -> u32
    ensures value { result ≡ code_of (desk_answer draft.now (length buffer.old)) }
    ensures buffer_after { buffer.new ≡ buffer_after draft.now buffer.old }
{
    hostdesk::snaldrek_proved_write_case(draft, buffer)
}
