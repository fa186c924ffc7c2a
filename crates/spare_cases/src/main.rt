// The slacks that document 01 gives for plans A and B, a place of each refusal 11, and rows that are bad. It prints one line for each
// question; `stdout` has the answers, written from document 01 by hand.

#![tactic(auto)]

use std::io;

// Plan B.
const B: [u16; 25] = [
    1, 2, 2, 1, 3, 0, 1, 0, 2, 2, 1, 0, 0, 0, 1, 1, 1, 2, 0, 0, 1, 1, 1, 1, 2,
];

// One of the slacks expected here, or that it is another.
fn show_slack(rt: &impl Print, z: i32) -> io::Result<()> {
    if z == 2 || z == 0 || z == -1 {
        println!(rt; "slack {z}")
    } else {
        println!(rt; "another slack")
    }
}

// The answer for message m and place p of a row.
fn tell(rt: &impl Print, row: &[u16], m: usize, p: usize) -> io::Result<()> {
    match spare::slack(row, m, p) {
        Ok(z) => show_slack(rt, z),
        Err(r) => println!(rt; "refused {} place {}", r.no, r.place),
    }
}

fn main(rt: HostRuntime) -> io::Result<()> {
    // plan B: "message 0, 2; message 1, -1"; no message 2, no place 1
    let b = B;
    tell(&rt, &b, 0, 0)?;
    tell(&rt, &b, 1, 0)?;
    tell(&rt, &b, 2, 0)?;
    tell(&rt, &b, 18446744073709551615, 0)?;
    tell(&rt, &b, 0, 1)?;
    tell(&rt, &b, 0, 18446744073709551615)?;
    // plan A: "0 and 0"; place 1 of message 0 has no second path
    let a = [
        1u16, 3, 3, 1, 3, 0, 1, 1, 3, 0, 2, 2, 3, 1, 0, 0, 1, 1, 2, 3, 1, 1, 0, 1, 2, 0, 1, 1, 0,
        1, 3, 1, 0,
    ];
    tell(&rt, &a, 0, 0)?;
    tell(&rt, &a, 1, 0)?;
    tell(&rt, &a, 0, 1)?;
    // bad rows: none of it, another edition, cut short, a number more, message 1 with the slot of message 0
    tell(&rt, &b[..0], 0, 0)?;
    let mut other = B;
    other[0] = 2;
    tell(&rt, &other, 0, 0)?;
    tell(&rt, &b[..24], 2, 0)?;
    let mut twice = B;
    twice[20] = 0;
    tell(&rt, &twice, 2, 0)
}
