// The one spelling of a sheet: numbers without plus signs, leading zeros or minus zero, in bytes that the caller lends.
ghost use Rattle.std.specs.Prelude.{◌+◌, ◌*◌, ◌≤◌, ◌≡◌, length};
ghost use Rattle.sheet.specs.Lines.{line_of, padded_to};
ghost use Rattle.sheet.specs.Sheet.{most_bytes, most_points, most_rules};
ghost use Rattle.sheet.specs.Spelling.{point_text, point_texts, pair_text, rule_text, rule_texts, spelling_of};
ghost use Rattle.sheet.specs.Spelling.{after_spelling, returned_in, spell_text_of, print_spelling_of};
ghost use Rattle.sheet.specs.program.Lines.{Appends};
ghost use Rattle.sheet.specs.program.Settling.{Settles};
ghost use Rattle.sheet.specs.program.Sheet.{coordinates_in, list_in, sheet_by};

use crate::fault::Fault;
use crate::lines::{append, clear_bytes, number, number_line, whole_number};
use crate::printing::print_error;
use crate::reader::{MOST_BYTES, read};
use crate::sheet::{Kind, Points, Rule, Rules, Sheet};

// at=X,Y
fn point_text(out: &mut [u8], place: usize, x: i64, y: i64) -> usize
    requires { place + 47 ≤ length out.old }
    ensures { (result ≤ place + 47) × Appends out.old place (point_text x y) out.new result }
{
    let first = append(out, place, b"at=");
    let second = whole_number(out, first, x);
    let third = append(out, second, b",");
    let fourth = whole_number(out, third, y);
    append(out, fourth, b"\n")
}

// A line for each point.
fn point_texts(out: &mut [u8], place: usize, points: Points) -> usize
    requires { (length (coordinates_in points) ≡ 2 * points.count) × (points.count ≤ most_points) ×
        (place + 47 * points.count ≤ length out.old) }
    ensures { (result ≤ place + 47 * points.count) ×
        Appends out.old place (point_texts (coordinates_in points)) out.new result }
{
    let mut end = place;
    for i in 0..points.count {
        end = point_text(
            out,
            end,
            points.coordinates[2 * i],
            points.coordinates[2 * i + 1],
        );
    }
    end
}

// I,J
fn pair(out: &mut [u8], place: usize, rule: Rule) -> usize
    requires { place + 41 ≤ length out.old }
    ensures { (result ≤ place + 41) × Appends out.old place (pair_text rule) out.new result }
{
    let first = number(out, place, rule.first);
    let second = append(out, first, b",");
    number(out, second, rule.second)
}

// A key and I,J
fn aligned_text(out: &mut [u8], place: usize, key: &[u8], rule: Rule) -> usize
    requires { place + length key.now + 42 ≤ length out.old }
    ensures { (result ≤ place + length key.now + 42) ×
        Appends out.old place (line_of key.now (pair_text rule)) out.new result }
{
    let first = append(out, place, key);
    let second = pair(out, first, rule);
    append(out, second, b"\n")
}

// span=I,J,D, level=I,J or plumb=I,J
fn rule_text(out: &mut [u8], place: usize, rule: Rule) -> usize
    requires { place + 68 ≤ length out.old }
    ensures { (result ≤ place + 68) × Appends out.old place (rule_text rule) out.new result }
{
    match rule.kind {
        Kind::Span => {
            let first = append(out, place, b"span=");
            let second = pair(out, first, rule);
            let third = append(out, second, b",");
            let fourth = number(out, third, rule.length);
            append(out, fourth, b"\n")
        }
        Kind::Level => aligned_text(out, place, b"level=", rule),
        Kind::Plumb => aligned_text(out, place, b"plumb=", rule),
    }
}

// A line for each rule.
fn rule_texts(out: &mut [u8], place: usize, rules: Rules) -> usize
    requires { (length (list_in rules) ≡ rules.count) × (rules.count ≤ most_rules) ×
        (place + 68 * rules.count ≤ length out.old) }
    ensures { (result ≤ place + 68 * rules.count) ×
        Appends out.old place (rule_texts (list_in rules)) out.new result }
{
    let mut end = place;
    for &rule in &rules.list[..rules.count] {
        end = rule_text(out, end, rule);
    }
    end
}

// All lines, and zeros behind them. Returns how many bytes the lines have.
fn write_sheet(out: &mut [u8], sheet: Sheet) -> usize
    requires { Settles sheet × (length out.old ≡ most_bytes) }
    ensures { (result ≡ length (spelling_of (sheet_by sheet))) ×
        (out.new ≡ padded_to most_bytes (spelling_of (sheet_by sheet))) }
{
    let points = sheet.points;
    let rules = sheet.rules;
    clear_bytes(out);
    let first = number_line(out, 0, b"points=", points.count);
    let second = point_texts(out, first, points);
    let third = number_line(out, second, b"limit=", sheet.limit);
    let fourth = number_line(out, third, b"reach=", sheet.reach);
    let fifth = number_line(out, fourth, b"rules=", rules.count);
    rule_texts(out, fifth, rules)
}

// Writes the one spelling of a sheet's text into 4,096 bytes, the rest 0, and returns how many bytes it has. Bytes of
// another length are refused first, then a text that is no sheet. A refusal writes nothing.
pub fn spell_text(text: &[u8], out: &mut [u8]) -> Result<usize, Fault>
    ensures { after_spelling (returned_in result) out.new
        ≡ spell_text_of text.now out.old }
{
    if out.len() != MOST_BYTES {
        return Err(Fault::WrongLength);
    }
    let sheet = read(text)?;
    Ok(write_sheet(out, sheet))
}

// Writes what the program prints of a text: its one spelling, or the line of its error, and zeros behind it. Bytes of
// another length are refused, with nothing written.
pub fn print_spelling(text: &[u8], out: &mut [u8]) -> Result<usize, Fault>
    ensures { after_spelling (returned_in result) out.new
        ≡ print_spelling_of text.now out.old }
{
    if out.len() != MOST_BYTES {
        return Err(Fault::WrongLength);
    }
    match spell_text(text, out) {
        Ok(length) => Ok(length),
        Err(fault) => Ok(print_error(out, fault.number())),
    }
}
