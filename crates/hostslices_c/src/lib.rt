// The functions of `hostslices` as C sees them, in an archive of their own; they hand on, and promise the same.
#![tactic(auto)]

ghost use Rattle.std.specs.Prelude.{◌≡◌};
ghost use Rattle.host.specs.Answers.{code_of};
ghost use Rattle.hostslices.specs.StepCalls.{begin_call_answer, record_after_begin_call, step_call_answer, record_after_step_call, ledger_after_step_call, table_after_step_call};

// Takes a case into a judgement, and takes its first step.
#[unsafe(no_mangle)]
pub extern "C" fn snaldrek_proved_begin(case: &[u8], judgement: &mut [u8]) -> u32
    ensures value { result ≡ code_of (begin_call_answer case.now judgement.old) }
    ensures judgement_after { judgement.new ≡ record_after_begin_call case.now judgement.old }
{
    hostslices::snaldrek_proved_begin(case, judgement)
}

// Takes a judgement's next step; the last one asks the ledger, and enters an accepted case.
#[unsafe(no_mangle)]
pub extern "C" fn snaldrek_proved_step(
    judgement: &mut [u8],
    ledger: &mut [u8],
    table: &mut [u8],
    roll: &[u8],
) -> u32
    ensures value { result ≡ code_of (step_call_answer judgement.old ledger.old table.old roll.now) }
    ensures judgement_after { judgement.new ≡ record_after_step_call judgement.old ledger.old table.old roll.now }
    ensures ledger_after { ledger.new ≡ ledger_after_step_call judgement.old ledger.old table.old roll.now }
    ensures table_after { table.new ≡ table_after_step_call judgement.old ledger.old table.old roll.now }
{
    hostslices::snaldrek_proved_step(judgement, ledger, table, roll)
}
