// The desk: from a draft, which has all that its holder chooses, the whole case, with what is worked out of it.
// A draft is a file in the case's own layout (docs/FORMATS.md); its fields that are worked out are not read.
// What a case must satisfy is left to `statement`, the hashes to `sprout`, and where a field lies to `casefile`.
#![tactic(auto)]

ghost use Rattle.std.specs.Prelude.{◌≡◌, cond, length};
ghost use Rattle.units.specs.Pairs.{number_of};
ghost use Rattle.refusals.specs.Rules.{first, rules_in, is_accepted};
ghost use Rattle.refusals.specs.Reasons.{as_answer};
ghost use Rattle.statement.specs.CaseRefusals.{h_sig_of};
ghost use Rattle.desk.specs.Drafts.{with_old, with_old_notes, with_rho, with_new, with_new_notes, written, lengths1, notes_refusals, desk_answer, buffer_after};

use refusals::Refusal;
use units::Which;

// 1
fn lengths(draft: &[u8], buffer: &[u8]) -> Result<(), Refusal>
    ensures { as_answer result ≡ first (lengths1 draft.now (length buffer.now)) }
{
    if !casefile::has_length(draft) {
        return Err(Refusal::Length);
    }
    if buffer.len() != draft.len() {
        return Err(Refusal::Length);
    }
    Ok(())
}

// 7, 9, 10 and 11, of a draft and of the same file with its old notes worked out.
fn notes(draft: &[u8], file: &[u8]) -> Result<(), Refusal>
    ensures { as_answer result ≡ first (rules_in (notes_refusals draft.now file.now)) }
{
    statement::distinct(file)?;
    statement::ranges(draft)?;
    statement::paths(file)?;
    statement::balance(draft)
}

// Of old note i: its address and its nullifier.
fn work_out_old(file: &mut [u8], i: Which)
    ensures { file.new ≡ with_old (number_of i) file.old }
{
    let key = casefile::old_key(file, i);
    let rho = casefile::old_rho(file, i);
    let address = sprout::address(&key);
    let nullifier = sprout::nullifier(&key, &rho);
    casefile::put_old_address(&mut *file, i, &address);
    casefile::put_nullifier(file, i, &nullifier);
}

fn work_out_old_notes(file: &mut [u8])
    ensures { file.new ≡ with_old_notes file.old }
{
    work_out_old(&mut *file, Which::First);
    work_out_old(file, Which::Second);
}

// Of new note i: its rho, and with that its commitment.
fn put_rho(file: &mut [u8], i: Which, rho: &[u8; 32])
    ensures { file.new ≡ with_rho (number_of i) rho.now file.old }
{
    let address = casefile::new_address(file, i);
    let value = casefile::new_value(file, i);
    let r = casefile::new_trapdoor(file, i);
    let commitment = sprout::commitment(&address, value, rho, &r);
    casefile::put_new_rho(&mut *file, i, rho);
    casefile::put_commitment(file, i, &commitment);
}

// What is over hSig: tag i, and new note i.
fn work_out_new(file: &mut [u8], i: Which, h: &[u8; 32])
    ensures { file.new ≡ with_new (number_of i) h.now file.old }
{
    let key = casefile::old_key(file, i);
    let tag = sprout::mac(i, &key, h);
    let phi = casefile::phi(file);
    let rho = sprout::rho(i, &phi, h);
    casefile::put_tag(&mut *file, i, &tag);
    put_rho(file, i, &rho);
}

fn work_out_new_notes(file: &mut [u8])
    ensures { file.new ≡ with_new_notes (h_sig_of file.old) file.old }
{
    let h = statement::h_sig(file);
    work_out_new(&mut *file, Which::First, &h);
    work_out_new(file, Which::Second, &h);
}

// 7 to 11 are asked in a file apart, as long as the draft, so that a refusal leaves the buffer as it was. What the new
// notes are is worked out only then.
fn write_checked(draft: &[u8], file: &mut [u8], buffer: &mut [u8]) -> Result<(), Refusal>
    requires { (length file.old ≡ length draft.now) × (length buffer.old ≡ length draft.now) }
    ensures value { as_answer result ≡ first (rules_in (notes_refusals draft.now (with_old_notes draft.now))) }
    ensures buffer_after { buffer.new ≡ cond (is_accepted (as_answer result)) (written draft.now) buffer.old }
{
    octets::copy_in(&mut *file, 0, draft);
    work_out_old_notes(&mut *file);
    notes(draft, file)?;
    work_out_new_notes(&mut *file);
    octets::copy_in(buffer, 0, file);
    Ok(())
}

// Writes the whole case into the buffer. On refusal the buffer keeps every byte.
pub fn write(draft: &[u8], buffer: &mut [u8]) -> Result<(), Refusal>
    ensures value { as_answer result ≡ desk_answer draft.now (length buffer.old) }
    ensures buffer_after { buffer.new ≡ buffer_after draft.now buffer.old }
{
    lengths(draft, buffer)?;
    statement::public_values(draft)?;
    let n = draft.len();
    let mut room = [0u8; 4210];
    write_checked(draft, &mut room[..n], buffer)
}
