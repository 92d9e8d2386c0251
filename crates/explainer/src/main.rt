// The explainer: one bag from standard input, its answers as lines on standard output, and behind each case that
// is refused as spent a line with the row in which its nullifier stands. That is what `./snaldrek judge --explain`
// reads. Which bytes those lines are is the contract of `scanning::scan_lines`; that these bytes are read and
// those are written cannot be said in a contract, so the stored run holds it.
#![tactic(auto)]

// A byte more than a bag may have: what fills it is too long, however it goes on. A program beside `scanner`, not
// a switch of it: a program is handed no arguments here, only its input. Its main, and those of `scanner`, `writer`
// and `packer`, are three calls each, over other lengths and other texts.
fn main(rt: HostRuntime) {
    let mut input = [0u8; 65537];
    let n = lines::read_full(&mut rt.stdin(), &mut input);
    let page = scanning::scan_lines(&input[..n], true);
    lines::print(&rt, page.text());
}
