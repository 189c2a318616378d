// Prints the one spelling of the sheet on standard input, or the line of its error: nothing else, on any input.
// All of it is sheet::print_spelling; here a text is read and bytes are printed.
#![tactic(auto)]

ghost use Rattle.std.specs.Prelude.{◌≡◌, ◌<◌, length, take, IfOk, IfSome, OnOk};
ghost use Rattle.std.specs.Io.KnownBytes.{Appends, Consumes, IsAtEnd};
ghost use Rattle.sheet.specs.Sheet.{most_bytes, read_of};
ghost use Rattle.sheet.specs.Spelling.{printed_spelling};
ghost use Rattle.spell.specs.Counts.{IsPrefixLen};

use std::io;
use std::io::{Input, Read, Write};

// How many bytes are to be printed: just what a text prints.
fn spelling(text: &[u8], out: &mut [u8]) -> usize
    requires { length out.old ≡ most_bytes }
    ensures prefix_len { IsPrefixLen result out.new }
    ensures out_after { take result out.new ≡ printed_spelling (read_of text.now) }
{
    sheet::print_spelling(text, out).unwrap()
}

fn print_spelling<W: Write>(text: &[u8], output: &mut W) -> io::Result<()>
    ensures { OnOk result (Appends (W.contents output.old) (W.contents output.new)
        (printed_spelling (read_of text.now))) }
{
    let mut out = [0u8; 4096];
    let length = spelling(text, &mut out);
    output.write_all(&out[..length])
}

// Reads until the bytes are full or the input ends, and returns how many it put at their start.
fn read_full<R: Read>(input: &mut R, bytes: &mut [u8]) -> io::Result<usize>
    ensures prefix_len { IfOk result (λ n. IsPrefixLen n bytes.new) }
    ensures text { IfOk result (λ n. Consumes (R.remaining input.old) (R.remaining input.new)
        (take n bytes.new)) }
    ensures end { IfOk result (λ n. n < length bytes.old → IsAtEnd (R.remaining input.new)) }
{
    let mut done = 0;
    while done < bytes.len() {
        let n = input.read(&mut bytes[done..])?;
        if n == 0 {
            break;
        }
        done += n;
    }
    Ok(done)
}

// Prints just what the whole input prints. One byte more than a sheet may have is enough to see that a text is too
// long.
fn spell<R: Read, W: Write>(input: &mut R, output: &mut W) -> io::Result<()>
    ensures { OnOk result (IfSome (R.remaining input.old) (λ text.
        Appends (W.contents output.old) (W.contents output.new) (printed_spelling (read_of text)))) }
{
    let mut text = [0u8; 4097];
    let length = read_full(input, &mut text)?;
    print_spelling(&text[..length], output)
}

fn main(rt: HostRuntime) -> io::Result<()> {
    spell(&mut rt.reader(), &mut io::writer(&rt))
}
