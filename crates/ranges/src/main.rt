// Reads records of a word and its address, four bytes each, big-endian, and writes for each: the word, the address, where a branch with
// that word goes, its immediate load or store offset as 32 bits, and its immediate operand. A register in their place is written as 0.
#![tactic(auto)]

use classes::{AddrLdrStr, LdrStrOffset, Op2};
use std::io::{self, Stdin, Stdout, Write};

fn load_offset(addr: AddrLdrStr) -> u32 {
    let (AddrLdrStr::Pre { offset, .. } | AddrLdrStr::Post { offset, .. }) = addr;
    match offset {
        LdrStrOffset::Imm(z) => modes::offset::pattern(z),
        LdrStrOffset::Reg { .. } => 0,
    }
}

fn immediate(op2: Op2) -> u32 {
    if let Op2::Imm(v) = op2 { v } else { 0 }
}

// A line for each record, in one write, since the stream has no buffer; what is left over at the end is none.
fn write_lines<W: Write>(output: &mut W, input: &[u8]) -> io::Result<()> {
    let (records, _) = input.as_chunks::<8>();
    for record in records {
        let word = words::word_at(record, 0);
        let address = words::word_at(record, 4);
        let ins = arm::decode(word, address);
        let target = ins.target;
        let offset = load_offset(ins.addr);
        let operand = immediate(ins.op2);
        let mut line = *b"00000000 00000000 00000000 00000000 00000000\n";
        text::put_hex(&mut line, 0, 8, word);
        text::put_hex(&mut line, 9, 8, address);
        text::put_hex(&mut line, 18, 8, target);
        text::put_hex(&mut line, 27, 8, offset);
        text::put_hex(&mut line, 36, 8, operand);
        output.write_all(&line)?;
    }
    Ok(())
}

fn run(from: &mut Stdin, output: &mut Stdout, input: &mut [u8]) -> io::Result<()> {
    let n = streams::read_full(from, input)?;
    write_lines(output, &input[..n])
}

// The buffer is lent by a function that does nothing else, since a proof about so long an array is slow.
fn main(rt: HostRuntime) -> io::Result<()> {
    let mut input = [0u8; 4096];
    run(&mut rt.stdin(), &mut rt.stdout(), &mut input)
}
