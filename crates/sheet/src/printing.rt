// What is printed of a sheet, into a slot of bytes that the caller lends: no io.
ghost use Rattle.std.specs.Prelude.{◌+◌, ◌*◌, ◌/◌, ◌≤◌, ◌≡◌, length};
ghost use Rattle.sheet.specs.Lines.{line_of, padded_to};
ghost use Rattle.sheet.specs.Printing.{SLOT, stop_key, name_of, middle_of, point_line, point_lines};
ghost use Rattle.sheet.specs.Printing.{error_of, finish_of, padded};
ghost use Rattle.sheet.specs.program.Lines.{Appends};

use crate::lines::{append, clear_bytes, number_line};
use float_bits::{bits_of, word_text};
use interval::Scalar;
use linear::at;
use run::Stop;

// How many bytes a slot has: no sheet prints more.
pub const SLOT: usize = 320;

// The bits of the midpoint.
fn middle(out: &mut [u8], place: usize, x: Scalar) -> usize
    requires { place + 16 ≤ length out.old }
    ensures { (result ≡ place + 16) × Appends out.old place (middle_of x) out.new result }
{
    let word = word_text(bits_of(x.sharpen().lo));
    append(out, place, &word)
}

// at=X,Y
fn point_line(out: &mut [u8], place: usize, x: Scalar, y: Scalar) -> usize
    requires { place + 37 ≤ length out.old }
    ensures { (result ≡ place + 37) × Appends out.old place (point_line x y) out.new result }
{
    let first = append(out, place, b"at=");
    let second = middle(out, first, x);
    let third = append(out, second, b",");
    let fourth = middle(out, third, y);
    append(out, fourth, b"\n")
}

// A line for each point.
fn point_lines(out: &mut [u8], place: usize, point: &[f64], count: usize) -> usize
    requires { place + 37 * count ≤ length out.old }
    ensures { (result ≡ place + 37 * count) ×
        Appends out.old place (point_lines point.now count) out.new result }
{
    let mut end = place;
    for i in 0..count {
        end = point_line(out, end, at(point, 2 * i), at(point, 2 * i + 1));
    }
    end
}

fn name(out: &mut [u8], place: usize, stop: Stop) -> usize
    requires { place + 10 ≤ length out.old }
    ensures { (result ≤ place + 10) × Appends out.old place (name_of stop) out.new result }
{
    match stop {
        Stop::Infeasible => {
            return append(out, place, b"infeasible");
        }
        Stop::NoChange(_) => {
            return append(out, place, b"nochange");
        }
        Stop::Undecided => {
            return append(out, place, b"undecided");
        }
        Stop::Flat(_, _) => {
            return append(out, place, b"flat");
        }
        Stop::Damped(_) => {
            return append(out, place, b"damped");
        }
        Stop::Budget => {
            return append(out, place, b"budget");
        }
    }
}

fn stop_line(out: &mut [u8], place: usize, stop: Stop) -> usize
    requires { place + 16 ≤ length out.old }
    ensures { (result ≤ place + 16) ×
        Appends out.old place (line_of stop_key (name_of stop)) out.new result }
{
    let first = append(out, place, b"stop=");
    let second = name(out, first, stop);
    append(out, second, b"\n")
}

// How a run ended, with the points that it left.
pub fn print_finish(out: &mut [u8], stop: Stop, iterations: usize, turned: usize, point: &[f64])
    requires { (length out.old ≡ SLOT) × (length point.now ≤ 24) }
    ensures { out.new ≡ padded (finish_of stop iterations turned point.now) }
{
    clear_bytes(out);
    let first = stop_line(out, 0, stop);
    let second = number_line(out, first, b"iterations=", iterations);
    let third = number_line(out, second, b"turned=", turned);
    point_lines(out, third, point, point.len() / 4);
}

// The one line of an error. Returns how many bytes it has.
pub fn print_error(out: &mut [u8], number: usize) -> usize
    requires { 27 ≤ length out.old }
    ensures { (result ≡ length (error_of number)) ×
        (out.new ≡ padded_to (length out.old) (error_of number)) }
{
    clear_bytes(out);
    number_line(out, 0, b"error=", number)
}
