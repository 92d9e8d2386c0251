// What the writer prints: of a form that is wrong, the line that tells so; of any other, the desk's answer and
// the case that it wrote. What a form is is left to `form`, how a case is made of it to `desk`, and where the bytes
// come from and go to to the program.
#![tactic(auto)]

ghost use Rattle.std.specs.Prelude.{◌≤◌, length};
ghost use Rattle.text.specs.Pen.{Wrote, Holds};
ghost use Rattle.writing.specs.Printed.{case_text, printed_of};

use refusals::Answer;
use text::Page;

// The desk's answer to a draft, and the case, where it is written.
fn put_case(page: &mut Page<4257>, draft: &[u8])
    requires { length draft.now ≤ 4210 }
    ensures { Wrote 4257 (case_text draft.now) page.old page.new }
{
    let n = draft.len();
    let mut room = [0u8; 4210];
    let a = Answer::from(desk::write(draft, &mut room[..n]));
    page.put_answer_line(b"desk", a);
    if a.is_accepted() {
        page.put(&room[..n]);
    }
}

// All that is printed for a text.
fn put_form(page: &mut Page<4257>, text: &[u8])
    ensures { Wrote 4257 (printed_of text.now) page.old page.new }
{
    let mut draft = Page::new();
    match form::read(text, &mut draft) {
        Ok(()) => put_case(page, draft.text()),
        Err(fault) => form::put_fault(page, fault),
    }
}

// The same on a page that always has room for it.
pub fn print_form(text: &[u8]) -> Page<4257>
    ensures { Holds 4257 (printed_of text.now) result }
{
    let mut page = Page::new();
    put_form(&mut page, text);
    page
}
