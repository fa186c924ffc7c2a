// The program `shelf`: reads the names of plan files from standard input, one a line, and prints the sheet: for each plan its figures, or its
// refusal, and its name; then for each k how many plans lose nothing, and the sum of losses. The first bad line is refused alone, and no plan
// is read then. `whole_shelf` composes the text.

#![tactic(auto)]

use scope::limits;

fn main(rt: HostRuntime) {
    let mut input = [0u8; limits::NAMES_ROOM];
    let mut out = [0u8; shelf_text::ROOM];
    if let Some(n) = program_io::read_input(&rt, b"shelf", &mut input) {
        let answer = whole_shelf::text(&rt, &input, n, &mut out);
        program_io::print(&rt, b"shelf", answer, &out);
    }
}
