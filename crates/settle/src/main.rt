// Settles the sheet on standard input, and prints how it ended or the line of its error: nothing else, on any input.
// All of it is sheet::settle_text; here a text is read and a slot is printed.
#![tactic(auto)]

ghost use Rattle.std.specs.Prelude.{◌≡◌, ◌<◌, length, take, IfOk, IfSome, OnOk};
ghost use Rattle.std.specs.Io.KnownBytes.{Appends, Consumes, IsAtEnd};
ghost use Rattle.run.specs.Limits.{AREA};
ghost use Rattle.settle.specs.Printed.{IsPrefixLen, before_zero};
ghost use Rattle.sheet.specs.Printing.{SLOT};
ghost use Rattle.sheet.specs.Settling.{print_of};

use std::io;
use std::io::{Input, Read, Write};

// The byte that stands behind what is printed.
const END: u8 = 0;

// How many bytes stand before the first zero byte.
fn printed(slot: &[u8]) -> usize
    ensures prefix_len { IsPrefixLen result slot.now }
    ensures slot_value { take result slot.now ≡ before_zero slot.now }
{
    slot.iter().position(|&b| b == END).unwrap_or(slot.len())
}

// How many bytes of the slot are to be printed: just what a text prints.
fn settled(text: &[u8], area: &mut [f64], slot: &mut [u8]) -> usize
    requires { (length area.old ≡ AREA) × (length slot.old ≡ SLOT) }
    ensures prefix_len { IsPrefixLen result slot.new }
    ensures slot_after { take result slot.new ≡ print_of text.now }
{
    sheet::settle_text(text, area, slot).unwrap();
    printed(slot)
}

fn print_settled<W: Write>(text: &[u8], output: &mut W) -> io::Result<()>
    ensures { OnOk result (Appends (W.contents output.old) (W.contents output.new)
        (print_of text.now)) }
{
    let mut area = [0.0; 8000];
    let mut slot = [0u8; 320];
    let length = settled(text, &mut area, &mut slot);
    output.write_all(&slot[..length])
}

// Reads until the bytes are full or the input ends, and returns how many it put at their start.
fn read_full<R: Read>(input: &mut R, bytes: &mut [u8]) -> io::Result<usize>
    ensures prefix_len { IfOk result (λ n. IsPrefixLen n bytes.new) }
    ensures text { IfOk result (λ n. Consumes (R.remaining input.old) (R.remaining input.new)
        (take n bytes.new)) }
    ensures end { IfOk result (λ n. n < length bytes.old → IsAtEnd (R.remaining input.new)) }
{
    let mut done = 0;
    while done < bytes.len() {
        let n = input.read(&mut bytes[done..])?;
        if n == 0 {
            break;
        }
        done += n;
    }
    Ok(done)
}

// Prints just what the whole input prints. One byte more than a sheet may have is enough to see that a text is too
// long.
fn settle<R: Read, W: Write>(input: &mut R, output: &mut W) -> io::Result<()>
    ensures { OnOk result (IfSome (R.remaining input.old) (λ text.
        Appends (W.contents output.old) (W.contents output.new) (print_of text))) }
{
    let mut text = [0u8; 4097];
    let length = read_full(input, &mut text)?;
    print_settled(&text[..length], output)
}

fn main(rt: HostRuntime) -> io::Result<()> {
    settle(&mut rt.reader(), &mut io::writer(&rt))
}
