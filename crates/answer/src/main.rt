// The program: one snapshot from standard input, one answer or refusal line to standard output.
// 4,097 bytes are read at most: a text of 4,097 bytes is too long whatever follows. A failed read counts as the end of the text.
// Where the line cannot be written, a sentence on standard error says so.
#![tactic(auto)]

fn main(rt: HostRuntime) {
    // No heap is a rule of the project: lists of a fixed size.
    let mut text = [0u8; 4097];
    let n = input::read_full(&mut rt.stdin(), &mut text);
    let mut line = [0u8; 45];
    let k = reply::reply(&text[..n], &mut line).unwrap_or(0);
    if rt.stdout().write_all(&line[..k]).is_err() {
        let _said = eprintln!(rt; "pasagumdil: the line could not be written");
    }
}
