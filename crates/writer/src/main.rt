// The writer: a form from standard input, and on standard output the desk's answer and the case, or what is wrong with
// the form. Which bytes those are is the contract of `writing::print_form`; that these bytes are read and those are
// written cannot be said in a contract, so the stored run holds it.
#![tactic(auto)]

// A byte more than a form may have: what fills it is too long, however it goes on.
fn main(rt: HostRuntime) {
    let mut input = [0u8; 65537];
    let n = lines::read_full(&mut rt.stdin(), &mut input);
    let page = writing::print_form(&input[..n]);
    lines::print(&rt, page.text());
}
