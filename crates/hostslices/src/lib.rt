// The C functions by which a host judges a case in steps, reached by way of entry/calls.c. They stand apart from
// `host`, and so in an object file of their own: the compiler makes the judge's code as if there were no steps
// beside it.
#![tactic(auto)]

ghost use Rattle.std.specs.Prelude.{◌≡◌};
ghost use Rattle.host.specs.Answers.{code_of};
ghost use Rattle.hostslices.specs.StepCalls.{begin_call_answer, record_after_begin_call, step_call_answer, record_after_step_call, ledger_after_step_call, table_after_step_call};

use host::Misuse;
use ledgerbytes::LEDGER_LENGTH;
use slices::JUDGEMENT_LENGTH;

// Takes a case into a judgement, and takes its first step.
pub fn snaldrek_proved_begin(case: &[u8], judgement: &mut [u8]) -> u32
    ensures value { result ≡ code_of (begin_call_answer case.now judgement.old) }
    ensures judgement_after { judgement.new ≡ record_after_begin_call case.now judgement.old }
{
    if judgement.len() != JUDGEMENT_LENGTH {
        return host::refused(Misuse::JudgementLength);
    }
    host::code(slices::begin(case, judgement))
}

// Takes a judgement's next step; the last one asks the ledger, and enters an accepted case.
pub fn snaldrek_proved_step(
    judgement: &mut [u8],
    ledger: &mut [u8],
    table: &mut [u8],
    roll: &[u8],
) -> u32
    ensures value { result ≡ code_of (step_call_answer judgement.old ledger.old table.old roll.now) }
    ensures judgement_after { judgement.new ≡ record_after_step_call judgement.old ledger.old table.old roll.now }
    ensures ledger_after { ledger.new ≡ ledger_after_step_call judgement.old ledger.old table.old roll.now }
    ensures table_after { table.new ≡ table_after_step_call judgement.old ledger.old table.old roll.now }
{
    if ledger.len() != LEDGER_LENGTH {
        return host::refused(Misuse::LedgerLength);
    }
    if judgement.len() != JUDGEMENT_LENGTH {
        return host::refused(Misuse::JudgementLength);
    }
    host::code(slices::step(judgement, table, roll, ledger))
}
