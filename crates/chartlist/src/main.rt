// Reads event lines on standard input and prints the chart that they make, or the first refusal.

#![tactic(auto)]

use definition::Position;
use input::{Stop, read_all};
use listing::{put_chart, put_refusal};
use rows::lent::{Lent, Tables};
use std::io;
use std::io::{Stdout, Write};

fn print(mut to: Stdout, out: &[u8]) -> io::Result<()> {
    to.write_all(out)
}

fn print_refusal(to: Stdout, number: u32, event: u64) -> io::Result<()> {
    let mut out = [0u8; 64];
    let n = put_refusal(&mut out, number, event);
    print(to, &out[..n])
}

// A chart within the limits needs some 201,600 bytes at most (docs/DECISIONS.md, 'Program').
fn print_chart(to: Stdout, tables: Tables<'_>, p: Position) -> io::Result<()> {
    let mut out = [0u8; 262144];
    let n = put_chart(&mut out, tables, p);
    print(to, &out[..n])
}

fn main(rt: HostRuntime) -> io::Result<()> {
    let mut lent = Lent {
        chart: &mut [[0u32; 24]; 1],
        states: &mut [[0u32; 24]; 256],
        transitions: &mut [[0u32; 8]; 512],
        regions: &mut [[0u32; 8]; 512],
        entries: &mut [[0u32; 48]; 2048],
        invokes: &mut [[0u32; 24]; 64],
        datums: &mut [[0u32; 8]; 256],
        parameters: &mut [[0u32; 8]; 512],
        members: &mut [[0u32; 8]; 4096],
        opened: &mut [[0u32; 8]; 32],
        open_names: &mut [[0u8; 64]; 32],
        open_regions: &mut [[0u32; 8]; 64],
        text: &mut [0u8; 65535],
    };
    let mut buffer = [0u8; 65536];
    match read_all(rt.stdin(), &mut lent, &mut buffer) {
        Ok(position) => print_chart(rt.stdout(), lent.tables(), position),
        Err(Stop::Refused { number, event }) => print_refusal(rt.stdout(), number, event),
        Err(Stop::Failed) => Err(io::Error::other("chartlist: standard input")),
    }
}
