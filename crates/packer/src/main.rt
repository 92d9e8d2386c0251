// The packer: one line of words and the bytes of cases from standard input, a bag to standard output, or a
// line that says what is wrong. Which bytes are written for which input is the contract of `packing::pack`;
// that these bytes are read and those are written cannot be said in a contract, so the stored run holds it.
#![tactic(auto)]

// Room for the line and twice the longest bag: what fills it is too long, however it goes on.
fn main(rt: HostRuntime) {
    let mut input = [0u8; 131072];
    let n = lines::read_full(&mut rt.stdin(), &mut input);
    let mut page = packing::Sheet::new();
    packing::pack(&input[..n], &mut page);
    lines::print(&rt, page.text());
}
